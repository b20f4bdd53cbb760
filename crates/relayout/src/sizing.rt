//! The inline size of a box before its content is laid out: whether it is definite, and on which children it depends (CSS Sizing 3, 2 and
//! 5).

ghost use Rattle.std.specs.Prelude.{◌≡◌, None, Some};
ghost use Rattle.relayout.specs.Reach.{IsBase};
ghost use Rattle.relayout.specs.Sizes.{sizes_along};
ghost use Rattle.relayout.specs.Step as rule;
ghost use Rattle.relayout.specs.Step.{IsInlineSize, under};

use crate::sizes::{Containing, Sizes};
use crate::styled::{BasedStyle, ContainedStyle};
use box_arena::BoxKey;
use fragment_types::Constraint;
use line_fill::Intrinsic;

/// How a box is sized, as far as that doesn't depend on its content.
#[derive(Clone, Copy, Debug, PartialEq, Eq)]
pub(crate) struct Sizing {
    /// What it is to its children.
    pub(crate) own: Containing,
    /// The block size that percentages of its children refer to.
    pub(crate) handed: Option<i64>,
    /// Whether it is measured alone, since the inline size of its containing block isn't known.
    pub(crate) measures: bool,
    /// Its inline size, where that is definite: where it doesn't depend on the content.
    pub(crate) definite: Option<i64>,
}

/// The inline size of a box: the min-content and the max-content size of its content area where it is measured alone, else the size
/// that is used.
#[derive(Clone, Copy, Debug, PartialEq, Eq)]
pub(crate) enum InlineSize {
    MinMax(Intrinsic),
    Used(i64),
}

impl Sizing {
    /// The constraint of its children where it has this inline size, or where that isn't known.
    pub(crate) fn under(&self, size: Option<i64>) -> Constraint
        ensures { result ≡ under size self.now.handed }
    {
        Constraint {
            inline: size,
            block: self.handed,
        }
    }

    /// The first of the children whose contributions its inline size depends on: of all, unless that size is definite.
    pub(crate) fn contributing(&self, first: Option<BoxKey>) -> Option<BoxKey>
        ensures { result ≡ rule.contributing self.now.definite first }
    {
        match self.definite {
            Some(_) => None,
            None => first,
        }
    }
}

impl InlineSize {
    /// The size that is used, unless the box is measured alone.
    pub(crate) fn used(self) -> Option<i64>
        requires { IsInlineSize self }
        ensures used { result ≡ rule.used_in self }
        ensures near { IsBase result }
    {
        match self {
            InlineSize::MinMax(_) => None,
            InlineSize::Used(size) => Some(size),
        }
    }

    /// The first of the children that are put in the box: of all, unless it is measured alone.
    pub(crate) fn laid_inside(self, first: Option<BoxKey>) -> Option<BoxKey>
        ensures { result ≡ rule.laid_inside self first }
    {
        match self {
            InlineSize::MinMax(_) => None,
            InlineSize::Used(_) => first,
        }
    }
}

impl ContainedStyle<'_> {
    /// Whether the box is measured alone.
    pub(crate) fn is_measured(&self) -> bool
        ensures { result ≡ rule.is_measured self.now.containing self.now.style.now self.now.c }
    {
        self.containing.is_parallel(self.style) && self.c.inline.is_none()
    }

    /// Its inline size, where that is definite. `measures` tells whether it is measured alone.
    pub(crate) fn definite_under(&self, measures: bool) -> Option<i64>
        ensures value { result ≡ rule.definite_under measures self.now.containing self.now.style.now self.now.c }
        ensures near { IsBase result }
    {
        if measures {
            self.sizes_measured().given()
        } else {
            self.known_size()
        }
    }

    /// What the style asks for on the containing block's inline axis, where its size isn't known.
    pub(crate) fn sizes_measured(&self) -> Sizes
        ensures { result ≡ sizes_along self.now.containing.mode self.now.style.now None }
    {
        let based = BasedStyle {
            style: self.style,
            base: None,
        };
        based.sizes_along(self.containing.mode)
    }
}

/// An inline size that is definite.
pub(crate) fn definite_size(measures: bool, size: i64) -> InlineSize
    requires size { IsBase (Some size) }
    ensures value { result ≡ rule.definite_size measures size }
    ensures near { IsInlineSize result }
{
    if measures {
        InlineSize::MinMax(Intrinsic {
            min: size,
            max: size,
        })
    } else {
        InlineSize::Used(size)
    }
}
