//! The properties that the profile keeps, and their rows in the table (docs/PROFILE/properties.md).

ghost use Rattle.std.specs.Prelude.{◌≡◌, ◌<◌, length, map, Some, slice_get};
ghost use Rattle.css_types.specs.Table.{IsRowOf, row_of};
ghost use Rattle.css_types.specs.Property.{place_of};
ghost use Rattle.css_types.specs.declared.table.TheConstants.{PROPERTY_COUNT};

use crate::table::{PROPERTIES, PropertyRow};

/// A property that the profile keeps: one for each longhand, in the order of the table.
#[derive(Clone, Copy, Debug, PartialEq, Eq)]
pub enum Property {
    Display,
    WritingMode,
    Direction,
    TextOrientation,
    TextCombineUpright,
    UnicodeBidi,
    FontSize,
    FontFamily,
    LineHeight,
    TextAlign,
    VerticalAlign,
    Width,
    Height,
    InlineSize,
    BlockSize,
    MinWidth,
    MinHeight,
    MinInlineSize,
    MinBlockSize,
    MaxWidth,
    MaxHeight,
    MaxInlineSize,
    MaxBlockSize,
    MarginTop,
    MarginRight,
    MarginBottom,
    MarginLeft,
    MarginBlockStart,
    MarginBlockEnd,
    MarginInlineStart,
    MarginInlineEnd,
    PaddingTop,
    PaddingRight,
    PaddingBottom,
    PaddingLeft,
    PaddingBlockStart,
    PaddingBlockEnd,
    PaddingInlineStart,
    PaddingInlineEnd,
    BorderTopWidth,
    BorderRightWidth,
    BorderBottomWidth,
    BorderLeftWidth,
    BorderBlockStartWidth,
    BorderBlockEndWidth,
    BorderInlineStartWidth,
    BorderInlineEndWidth,
    BorderTopStyle,
    BorderRightStyle,
    BorderBottomStyle,
    BorderLeftStyle,
    BorderBlockStartStyle,
    BorderBlockEndStyle,
    BorderInlineStartStyle,
    BorderInlineEndStyle,
    Position,
    InsetTop,
    InsetRight,
    InsetBottom,
    InsetLeft,
    InsetBlockStart,
    InsetBlockEnd,
    InsetInlineStart,
    InsetInlineEnd,
}

impl Property {
    /// The row of the property in the table of properties, which is its only one. Takes no memory.
    pub fn row(self) -> PropertyRow
        ensures only { IsRowOf self result }
        ensures found { row_of self ≡ Some result }
    {
        row_at(&PROPERTIES, self.place())
    }

    /// The place of its row in the table, whose rows stand in the order of the variants: below `PROPERTY_COUNT`. Takes no memory.
    pub fn place(self) -> usize
        ensures place { result ≡ place_of self }
        ensures below { result < PROPERTY_COUNT }
    {
        self as usize
    }
}

// The row at this place of a table.
fn row_at(table: &[(&str, PropertyRow)], place: usize) -> PropertyRow
    requires { place < length table.now }
    ensures { slice_get (map (λ named. named.1) table.now) place ≡ Some result }
{
    table[place].1
}
