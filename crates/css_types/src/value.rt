//! Values and declarations, as a style sheet gives them (docs/PROFILE/properties.md).

use crate::keyword::Keyword;
use crate::property::Property;

/// The value of a declaration. Numbers are in hundredths: 150 for `1.5`.
#[derive(Clone, Copy, Debug, PartialEq, Eq)]
pub enum Value {
    /// `initial`.
    Initial,
    /// `inherit`.
    Inherit,
    Keyword(Keyword),
    /// A length in hundredths of a pixel; `0` is `Px(0)`, and the border widths `thin`, `medium` and
    /// `thick` are lengths too.
    Px(i64),
    /// A length in hundredths of the font size.
    Em(i64),
    /// Hundredths of a percent.
    Percent(i64),
    /// A number in hundredths, of `line-height`; its `0` is `Number(0)`.
    Number(i64),
    /// The face `face0` to `face7`.
    Face(u8),
    /// `digits` with 2, 3 or 4.
    Digits(u8),
}

/// A declaration that is kept.
#[derive(Clone, Copy, Debug, PartialEq, Eq)]
pub struct Declaration {
    pub property: Property,
    pub value: Value,
    /// Whether it is `!important`.
    pub important: bool,
    /// The place of its name in the input in bytes, in a style attribute that of the attribute's name.
    pub place: usize,
}
