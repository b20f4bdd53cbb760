//! The table of properties: each longhand once (docs/PROFILE/properties.md).

use crate::keyword::{Keyword, Keywords};
use crate::property::Property;
use crate::reach::{Axis, AxisFamily, FlowAxis, Reach, SideFamily};
use crate::value::Value;
use wm_modes::{FlowSide, Side};

/// A row of the table of properties.
#[derive(Clone, Copy, Debug)]
pub struct PropertyRow {
    pub property: Property,
    pub values: Values,
    pub initial: Value,
    /// Whether an element without a declaration takes its parent's value.
    pub inherited: bool,
    pub reach: Reach,
}

/// The values that a property takes beside `initial` and, where it is inherited, `inherit`.
#[derive(Clone, Copy, Debug)]
pub struct Values {
    pub keywords: Keywords,
    pub lengths: Range,
    pub percentages: Range,
    pub more: More,
}

/// Which numbers of a kind are values.
#[derive(Clone, Copy, Debug, PartialEq, Eq)]
pub enum Range {
    Nowhere,
    NotNegative,
    Anywhere,
}

/// Values of a kind that few properties take.
#[derive(Clone, Copy, Debug, PartialEq, Eq)]
pub enum More {
    Nothing,
    /// Numbers that aren't negative, of `line-height`.
    Numbers,
    /// Names of faces, of `font-family`.
    Faces,
    /// `digits` with 2, 3 or 4, of `text-combine-upright`.
    Digits,
    /// `thin`, `medium` and `thick`, of border widths.
    Widths,
}

macro_rules! values {
    ($keywords:ident $lengths:ident $percentages:ident $more:ident) => {
        Values {
            keywords: Keywords::$keywords,
            lengths: Range::$lengths,
            percentages: Range::$percentages,
            more: More::$more,
        }
    };
}

// The columns: keywords, lengths, percentages, more values.
const DISPLAYS: Values = values!(Displays Nowhere Nowhere Nothing);

const MODES: Values = values!(Modes Nowhere Nowhere Nothing);

const DIRECTIONS: Values = values!(Directions Nowhere Nowhere Nothing);

const ORIENTATIONS: Values = values!(Orientations Nowhere Nowhere Nothing);

const COMBINES: Values = values!(Combines Nowhere Nowhere Digits);

const BIDIS: Values = values!(Bidis Nowhere Nowhere Nothing);

const FONT_SIZES: Values = values!(Nowhere NotNegative NotNegative Nothing);

const FAMILIES: Values = values!(Nowhere Nowhere Nowhere Faces);

const LINE_HEIGHTS: Values = values!(Normal NotNegative NotNegative Numbers);

const ALIGNS: Values = values!(Aligns Nowhere Nowhere Nothing);

const SHIFTS: Values = values!(Baseline Anywhere Nowhere Nothing);

const SIZES: Values = values!(Auto NotNegative NotNegative Nothing);

const MAXIMA: Values = values!(NoLimit NotNegative NotNegative Nothing);
/// The values of the margin of a side.
pub const MARGINS: Values = values!(Auto Anywhere Anywhere Nothing);
/// The values of the padding of a side.
pub const PADDINGS: Values = values!(Nowhere NotNegative NotNegative Nothing);
/// The values of the border width of a side.
pub const WIDTHS: Values = values!(Nowhere NotNegative Nowhere Widths);
/// The values of the border style of a side.
pub const LINES: Values = values!(Lines Nowhere Nowhere Nothing);
/// The values of the inset of a side.
pub const INSETS: Values = values!(Auto Anywhere Anywhere Nothing);

const POSITIONS: Values = values!(Positions Nowhere Nowhere Nothing);

macro_rules! rows {
    ($($property:ident $name:literal $values:ident $initial:expr, $inherited:literal $reach:expr;)*) => {
        [$((
            $name,
            PropertyRow {
                property: Property::$property,
                values: $values,
                initial: $initial,
                inherited: $inherited,
                reach: $reach,
            },
        )),*]
    };
}

/// How many longhands there are.
pub const PROPERTY_COUNT: usize = 64;

/// Each longhand with its name in lower case, in the order of the table of the docs.
///
/// The columns: the property, its name, its values, the initial value, whether it is inherited, what of a box it
/// is about.
pub static PROPERTIES: [(&str, PropertyRow); PROPERTY_COUNT] = rows! {
    Display                "display"                   DISPLAYS     Value::Keyword(Keyword::Inline),       false Reach::Whole;
    WritingMode            "writing-mode"              MODES        Value::Keyword(Keyword::HorizontalTb), true  Reach::Whole;
    Direction              "direction"                 DIRECTIONS   Value::Keyword(Keyword::Ltr),          true  Reach::Whole;
    TextOrientation        "text-orientation"          ORIENTATIONS Value::Keyword(Keyword::Mixed),        true  Reach::Whole;
    TextCombineUpright     "text-combine-upright"      COMBINES     Value::Keyword(Keyword::None),         true  Reach::Whole;
    UnicodeBidi            "unicode-bidi"              BIDIS        Value::Keyword(Keyword::Normal),       false Reach::Whole;
    FontSize               "font-size"                 FONT_SIZES   Value::Px(1600),                       true  Reach::Whole;
    FontFamily             "font-family"               FAMILIES     Value::Face(0),                        true  Reach::Whole;
    LineHeight             "line-height"               LINE_HEIGHTS Value::Keyword(Keyword::Normal),       true  Reach::Whole;
    TextAlign              "text-align"                ALIGNS       Value::Keyword(Keyword::Start),        true  Reach::Whole;
    VerticalAlign          "vertical-align"            SHIFTS       Value::Keyword(Keyword::Baseline),     false Reach::Whole;
    Width                  "width"                     SIZES        Value::Keyword(Keyword::Auto),         false Reach::PhysicalAxis(AxisFamily::Size, Axis::Horizontal);
    Height                 "height"                    SIZES        Value::Keyword(Keyword::Auto),         false Reach::PhysicalAxis(AxisFamily::Size, Axis::Vertical);
    InlineSize             "inline-size"               SIZES        Value::Keyword(Keyword::Auto),         false Reach::FlowAxis(AxisFamily::Size, FlowAxis::Inline);
    BlockSize              "block-size"                SIZES        Value::Keyword(Keyword::Auto),         false Reach::FlowAxis(AxisFamily::Size, FlowAxis::Block);
    MinWidth               "min-width"                 SIZES        Value::Keyword(Keyword::Auto),         false Reach::PhysicalAxis(AxisFamily::MinSize, Axis::Horizontal);
    MinHeight              "min-height"                SIZES        Value::Keyword(Keyword::Auto),         false Reach::PhysicalAxis(AxisFamily::MinSize, Axis::Vertical);
    MinInlineSize          "min-inline-size"           SIZES        Value::Keyword(Keyword::Auto),         false Reach::FlowAxis(AxisFamily::MinSize, FlowAxis::Inline);
    MinBlockSize           "min-block-size"            SIZES        Value::Keyword(Keyword::Auto),         false Reach::FlowAxis(AxisFamily::MinSize, FlowAxis::Block);
    MaxWidth               "max-width"                 MAXIMA       Value::Keyword(Keyword::None),         false Reach::PhysicalAxis(AxisFamily::MaxSize, Axis::Horizontal);
    MaxHeight              "max-height"                MAXIMA       Value::Keyword(Keyword::None),         false Reach::PhysicalAxis(AxisFamily::MaxSize, Axis::Vertical);
    MaxInlineSize          "max-inline-size"           MAXIMA       Value::Keyword(Keyword::None),         false Reach::FlowAxis(AxisFamily::MaxSize, FlowAxis::Inline);
    MaxBlockSize           "max-block-size"            MAXIMA       Value::Keyword(Keyword::None),         false Reach::FlowAxis(AxisFamily::MaxSize, FlowAxis::Block);
    MarginTop              "margin-top"                MARGINS      Value::Px(0),                          false Reach::PhysicalSide(SideFamily::Margin, Side::Top);
    MarginRight            "margin-right"              MARGINS      Value::Px(0),                          false Reach::PhysicalSide(SideFamily::Margin, Side::Right);
    MarginBottom           "margin-bottom"             MARGINS      Value::Px(0),                          false Reach::PhysicalSide(SideFamily::Margin, Side::Bottom);
    MarginLeft             "margin-left"               MARGINS      Value::Px(0),                          false Reach::PhysicalSide(SideFamily::Margin, Side::Left);
    MarginBlockStart       "margin-block-start"        MARGINS      Value::Px(0),                          false Reach::FlowSide(SideFamily::Margin, FlowSide::BlockStart);
    MarginBlockEnd         "margin-block-end"          MARGINS      Value::Px(0),                          false Reach::FlowSide(SideFamily::Margin, FlowSide::BlockEnd);
    MarginInlineStart      "margin-inline-start"       MARGINS      Value::Px(0),                          false Reach::FlowSide(SideFamily::Margin, FlowSide::InlineStart);
    MarginInlineEnd        "margin-inline-end"         MARGINS      Value::Px(0),                          false Reach::FlowSide(SideFamily::Margin, FlowSide::InlineEnd);
    PaddingTop             "padding-top"               PADDINGS     Value::Px(0),                          false Reach::PhysicalSide(SideFamily::Padding, Side::Top);
    PaddingRight           "padding-right"             PADDINGS     Value::Px(0),                          false Reach::PhysicalSide(SideFamily::Padding, Side::Right);
    PaddingBottom          "padding-bottom"            PADDINGS     Value::Px(0),                          false Reach::PhysicalSide(SideFamily::Padding, Side::Bottom);
    PaddingLeft            "padding-left"              PADDINGS     Value::Px(0),                          false Reach::PhysicalSide(SideFamily::Padding, Side::Left);
    PaddingBlockStart      "padding-block-start"       PADDINGS     Value::Px(0),                          false Reach::FlowSide(SideFamily::Padding, FlowSide::BlockStart);
    PaddingBlockEnd        "padding-block-end"         PADDINGS     Value::Px(0),                          false Reach::FlowSide(SideFamily::Padding, FlowSide::BlockEnd);
    PaddingInlineStart     "padding-inline-start"      PADDINGS     Value::Px(0),                          false Reach::FlowSide(SideFamily::Padding, FlowSide::InlineStart);
    PaddingInlineEnd       "padding-inline-end"        PADDINGS     Value::Px(0),                          false Reach::FlowSide(SideFamily::Padding, FlowSide::InlineEnd);
    BorderTopWidth         "border-top-width"          WIDTHS       Value::Px(300),                        false Reach::PhysicalSide(SideFamily::BorderWidth, Side::Top);
    BorderRightWidth       "border-right-width"        WIDTHS       Value::Px(300),                        false Reach::PhysicalSide(SideFamily::BorderWidth, Side::Right);
    BorderBottomWidth      "border-bottom-width"       WIDTHS       Value::Px(300),                        false Reach::PhysicalSide(SideFamily::BorderWidth, Side::Bottom);
    BorderLeftWidth        "border-left-width"         WIDTHS       Value::Px(300),                        false Reach::PhysicalSide(SideFamily::BorderWidth, Side::Left);
    BorderBlockStartWidth  "border-block-start-width"  WIDTHS       Value::Px(300),                        false Reach::FlowSide(SideFamily::BorderWidth, FlowSide::BlockStart);
    BorderBlockEndWidth    "border-block-end-width"    WIDTHS       Value::Px(300),                        false Reach::FlowSide(SideFamily::BorderWidth, FlowSide::BlockEnd);
    BorderInlineStartWidth "border-inline-start-width" WIDTHS       Value::Px(300),                        false Reach::FlowSide(SideFamily::BorderWidth, FlowSide::InlineStart);
    BorderInlineEndWidth   "border-inline-end-width"   WIDTHS       Value::Px(300),                        false Reach::FlowSide(SideFamily::BorderWidth, FlowSide::InlineEnd);
    BorderTopStyle         "border-top-style"          LINES        Value::Keyword(Keyword::None),         false Reach::PhysicalSide(SideFamily::BorderStyle, Side::Top);
    BorderRightStyle       "border-right-style"        LINES        Value::Keyword(Keyword::None),         false Reach::PhysicalSide(SideFamily::BorderStyle, Side::Right);
    BorderBottomStyle      "border-bottom-style"       LINES        Value::Keyword(Keyword::None),         false Reach::PhysicalSide(SideFamily::BorderStyle, Side::Bottom);
    BorderLeftStyle        "border-left-style"         LINES        Value::Keyword(Keyword::None),         false Reach::PhysicalSide(SideFamily::BorderStyle, Side::Left);
    BorderBlockStartStyle  "border-block-start-style"  LINES        Value::Keyword(Keyword::None),         false Reach::FlowSide(SideFamily::BorderStyle, FlowSide::BlockStart);
    BorderBlockEndStyle    "border-block-end-style"    LINES        Value::Keyword(Keyword::None),         false Reach::FlowSide(SideFamily::BorderStyle, FlowSide::BlockEnd);
    BorderInlineStartStyle "border-inline-start-style" LINES        Value::Keyword(Keyword::None),         false Reach::FlowSide(SideFamily::BorderStyle, FlowSide::InlineStart);
    BorderInlineEndStyle   "border-inline-end-style"   LINES        Value::Keyword(Keyword::None),         false Reach::FlowSide(SideFamily::BorderStyle, FlowSide::InlineEnd);
    Position               "position"                  POSITIONS    Value::Keyword(Keyword::Static),       false Reach::Whole;
    InsetTop               "top"                       INSETS       Value::Keyword(Keyword::Auto),         false Reach::PhysicalSide(SideFamily::Inset, Side::Top);
    InsetRight             "right"                     INSETS       Value::Keyword(Keyword::Auto),         false Reach::PhysicalSide(SideFamily::Inset, Side::Right);
    InsetBottom            "bottom"                    INSETS       Value::Keyword(Keyword::Auto),         false Reach::PhysicalSide(SideFamily::Inset, Side::Bottom);
    InsetLeft              "left"                      INSETS       Value::Keyword(Keyword::Auto),         false Reach::PhysicalSide(SideFamily::Inset, Side::Left);
    InsetBlockStart        "inset-block-start"         INSETS       Value::Keyword(Keyword::Auto),         false Reach::FlowSide(SideFamily::Inset, FlowSide::BlockStart);
    InsetBlockEnd          "inset-block-end"           INSETS       Value::Keyword(Keyword::Auto),         false Reach::FlowSide(SideFamily::Inset, FlowSide::BlockEnd);
    InsetInlineStart       "inset-inline-start"        INSETS       Value::Keyword(Keyword::Auto),         false Reach::FlowSide(SideFamily::Inset, FlowSide::InlineStart);
    InsetInlineEnd         "inset-inline-end"          INSETS       Value::Keyword(Keyword::Auto),         false Reach::FlowSide(SideFamily::Inset, FlowSide::InlineEnd);
};
