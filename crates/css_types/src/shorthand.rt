//! The table of shorthands (docs/PROFILE/properties.md).

use crate::property::Property;
use crate::table::{INSETS, LINES, MARGINS, PADDINGS, Values, WIDTHS};

/// Longhands that mean the same of different sides.
#[derive(Clone, Copy, Debug, PartialEq, Eq)]
pub enum Longhands {
    One(Property),
    Ends {
        start: Property,
        end: Property,
    },
    Sides {
        top: Property,
        right: Property,
        bottom: Property,
        left: Property,
    },
}

/// How the values of a shorthand are given to its longhands.
#[derive(Clone, Copy, Debug)]
pub enum Shorthand {
    /// One to four values for top, right, bottom and left (CSS 2, 8.3), or one or two for start and end (CSS Logical
    /// Properties 1, 4.2): each is one of these values.
    Round(Values, Longhands),
    /// A width, a style and a colour, each at most once, in any order (CSS 2, 8.5.4). The width is given to all of
    /// `widths`, then the style to all of `styles`. The colour is passed over.
    Border {
        widths: Longhands,
        styles: Longhands,
    },
}

macro_rules! longhands {
    (One $one:ident) => {
        Longhands::One(Property::$one)
    };
    (Ends $start:ident $end:ident) => {
        Longhands::Ends {
            start: Property::$start,
            end: Property::$end,
        }
    };
    (Sides $top:ident $right:ident $bottom:ident $left:ident) => {
        Longhands::Sides {
            top: Property::$top,
            right: Property::$right,
            bottom: Property::$bottom,
            left: Property::$left,
        }
    };
}

macro_rules! round {
    ($values:ident, $($longhands:ident)*) => {
        Shorthand::Round($values, longhands!($($longhands)*))
    };
}

macro_rules! border {
    ($($widths:ident)*, $($styles:ident)*) => {
        Shorthand::Border {
            widths: longhands!($($widths)*),
            styles: longhands!($($styles)*),
        }
    };
}

/// Each shorthand once, with its name in lower case.
pub static SHORTHANDS: [(&str, Shorthand); 26] = [
    (
        "margin",
        round!(MARGINS, Sides MarginTop MarginRight MarginBottom MarginLeft),
    ),
    (
        "padding",
        round!(PADDINGS, Sides PaddingTop PaddingRight PaddingBottom PaddingLeft),
    ),
    (
        "border-width",
        round!(WIDTHS, Sides BorderTopWidth BorderRightWidth BorderBottomWidth BorderLeftWidth),
    ),
    (
        "border-style",
        round!(LINES, Sides BorderTopStyle BorderRightStyle BorderBottomStyle BorderLeftStyle),
    ),
    (
        "margin-block",
        round!(MARGINS, Ends MarginBlockStart MarginBlockEnd),
    ),
    (
        "margin-inline",
        round!(MARGINS, Ends MarginInlineStart MarginInlineEnd),
    ),
    (
        "padding-block",
        round!(PADDINGS, Ends PaddingBlockStart PaddingBlockEnd),
    ),
    (
        "padding-inline",
        round!(PADDINGS, Ends PaddingInlineStart PaddingInlineEnd),
    ),
    (
        "border-block-width",
        round!(WIDTHS, Ends BorderBlockStartWidth BorderBlockEndWidth),
    ),
    (
        "border-inline-width",
        round!(WIDTHS, Ends BorderInlineStartWidth BorderInlineEndWidth),
    ),
    (
        "border-block-style",
        round!(LINES, Ends BorderBlockStartStyle BorderBlockEndStyle),
    ),
    (
        "border-inline-style",
        round!(LINES, Ends BorderInlineStartStyle BorderInlineEndStyle),
    ),
    (
        "border",
        border!(Sides BorderTopWidth BorderRightWidth BorderBottomWidth BorderLeftWidth, Sides BorderTopStyle BorderRightStyle BorderBottomStyle BorderLeftStyle),
    ),
    (
        "border-top",
        border!(One BorderTopWidth, One BorderTopStyle),
    ),
    (
        "border-right",
        border!(One BorderRightWidth, One BorderRightStyle),
    ),
    (
        "border-bottom",
        border!(One BorderBottomWidth, One BorderBottomStyle),
    ),
    (
        "border-left",
        border!(One BorderLeftWidth, One BorderLeftStyle),
    ),
    (
        "border-block-start",
        border!(One BorderBlockStartWidth, One BorderBlockStartStyle),
    ),
    (
        "border-block-end",
        border!(One BorderBlockEndWidth, One BorderBlockEndStyle),
    ),
    (
        "border-inline-start",
        border!(One BorderInlineStartWidth, One BorderInlineStartStyle),
    ),
    (
        "border-inline-end",
        border!(One BorderInlineEndWidth, One BorderInlineEndStyle),
    ),
    (
        "border-block",
        border!(Ends BorderBlockStartWidth BorderBlockEndWidth, Ends BorderBlockStartStyle BorderBlockEndStyle),
    ),
    (
        "border-inline",
        border!(Ends BorderInlineStartWidth BorderInlineEndWidth, Ends BorderInlineStartStyle BorderInlineEndStyle),
    ),
    (
        "inset",
        round!(INSETS, Sides InsetTop InsetRight InsetBottom InsetLeft),
    ),
    (
        "inset-block",
        round!(INSETS, Ends InsetBlockStart InsetBlockEnd),
    ),
    (
        "inset-inline",
        round!(INSETS, Ends InsetInlineStart InsetInlineEnd),
    ),
];
