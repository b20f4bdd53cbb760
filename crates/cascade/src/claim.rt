//! Declarations that count for an element, with what decides between them (CSS Cascading 4, 6).

ghost use Rattle.std.specs.Prelude.{◌≡◌};
ghost use Rattle.cascade.specs.Claims.{is_below};

use css_sheet::Specificity;
use css_types::{Property, Value};

/// Where a declaration comes from, from the weakest on (CSS Cascading 4, 6.2 and 6.3).
#[derive(Clone, Copy, Debug, PartialEq, Eq)]
pub enum Origin {
    /// The default sheet, and the `dir` attribute.
    Default,
    /// The author's rules and style attributes.
    Author,
    /// What the author's rules and style attributes declare with `!important`.
    Important,
}

/// What decides between declarations: of two keys the greater wins, compared field by field in this order.
#[derive(Clone, Copy, Debug, PartialEq, Eq)]
pub struct Key {
    pub origin: Origin,
    /// Whether it stands in the element's style attribute.
    pub own: bool,
    pub specificity: Specificity,
    /// The place of the rule in its sheet or sheets, from 0.
    pub rule: usize,
    /// The place of the declaration in its rule, from 0.
    pub declaration: usize,
}

impl Key {
    /// Whether the other key is greater.
    #[tactic(auto, unfolding(crate::specs::Claims::is_less))]
    pub(crate) fn is_below(self, other: Key) -> bool
        ensures { result ≡ is_below self other }
    {
        if self.origin != other.origin {
            (self.origin as u8) < other.origin as u8
        } else if self.own != other.own {
            other.own
        } else if self.specificity != other.specificity {
            self.specificity < other.specificity
        } else if self.rule != other.rule {
            self.rule < other.rule
        } else {
            self.declaration < other.declaration
        }
    }
}

/// A declaration that counts for an element.
#[derive(Clone, Copy, Debug, PartialEq, Eq)]
pub struct Claim {
    pub key: Key,
    pub property: Property,
    pub value: Value,
}
