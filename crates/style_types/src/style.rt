//! Computed styles (CSS 2, 6.1.2).

ghost use Rattle.std.specs.Prelude.{◌≡◌};
ghost use Rattle.wm_modes.specs.Sides as sides;
ghost use Rattle.style_types.specs.Style.{baseline_of, is_upright, vertical_baseline};

use wm_modes::{Direction, WritingMode, used_direction};

/// `display` (CSS 2, 9.2.4). `Hidden` is `none`.
#[derive(Clone, Copy, Debug, PartialEq, Eq)]
pub enum Display {
    Block,
    Inline,
    InlineBlock,
    FlowRoot,
    Hidden,
}

/// `text-orientation` (CSS Writing Modes 4, 5.1).
#[derive(Clone, Copy, Debug, PartialEq, Eq)]
pub enum TextOrientation {
    Mixed,
    Upright,
    Sideways,
}

/// `text-combine-upright` (CSS Writing Modes 4, 9.1). `Never` is `none`; `Digits` has the greatest count of digits that are
/// combined: 2, 3 or 4.
#[derive(Clone, Copy, Debug, PartialEq, Eq)]
pub enum Combine {
    Never,
    All,
    Digits(u8),
}

/// `unicode-bidi` (CSS Writing Modes 4, 2.2).
#[derive(Clone, Copy, Debug, PartialEq, Eq)]
pub enum UnicodeBidi {
    Normal,
    Embed,
    Isolate,
    BidiOverride,
    IsolateOverride,
    Plaintext,
}

/// `line-height` (CSS 2, 10.8.1): a number in hundredths of the font size, or a length in units.
#[derive(Clone, Copy, Debug, PartialEq, Eq)]
pub enum LineHeight {
    Normal,
    Number(i64),
    Length(i64),
}

/// `text-align` (CSS 2, 16.2).
#[derive(Clone, Copy, Debug, PartialEq, Eq)]
pub enum Align {
    Start,
    End,
    Left,
    Right,
    Center,
}

/// Which baseline a paragraph aligns its boxes by (CSS Writing Modes 4, 4.2).
#[derive(Clone, Copy, Debug, PartialEq, Eq)]
pub enum Baseline {
    Alphabetic,
    Central,
}

/// A size, margin, padding or inset: a length in units of 1/64 px, or hundredths of a percent. A maximum of none is
/// `Auto`.
#[derive(Clone, Copy, Debug, PartialEq, Eq)]
pub enum Size {
    Auto,
    Length(i64),
    Percent(i64),
}

/// A size for each side of the page.
#[derive(Clone, Copy, Debug, PartialEq, Eq)]
pub struct SideSizes {
    pub top: Size,
    pub right: Size,
    pub bottom: Size,
    pub left: Size,
}

/// The insets of a relatively positioned element, one for each side of the page (CSS Positioned Layout 3, 3.1).
#[derive(Clone, Copy, Debug, PartialEq, Eq)]
pub struct Insets {
    pub top: Size,
    pub right: Size,
    pub bottom: Size,
    pub left: Size,
}

/// A width in units of 1/64 px for each side of the page.
#[derive(Clone, Copy, Debug, PartialEq, Eq)]
pub struct SideWidths {
    pub top: i64,
    pub right: i64,
    pub bottom: i64,
    pub left: i64,
}

/// A computed style. Lengths are in units of 1/64 px.
#[derive(Clone, Copy, Debug, PartialEq, Eq)]
pub struct Style {
    pub display: Display,
    pub mode: WritingMode,
    pub direction: Direction,
    pub orientation: TextOrientation,
    pub combine: Combine,
    pub bidi: UnicodeBidi,
    pub font_size: i64,
    pub face: u8,
    pub line_height: LineHeight,
    pub align: Align,
    /// The length of `vertical-align`, 0 for `baseline`.
    pub shift: i64,
    pub width: Size,
    pub height: Size,
    pub min_width: Size,
    pub min_height: Size,
    pub max_width: Size,
    pub max_height: Size,
    pub margin: SideSizes,
    pub padding: SideSizes,
    pub border: SideWidths,
    /// `position: relative`; else `static` (CSS Positioned Layout 3, 2).
    pub relative: bool,
    pub insets: Insets,
}

impl Style {
    /// The used direction: `Ltr` where upright text stands in vertical lines, else the computed one (CSS Writing
    /// Modes 4, 5.1). Takes no memory.
    pub fn used_direction(&self) -> Direction
        ensures { result ≡ sides.used_direction self.now.mode (is_upright self.now.orientation) self.now.direction }
    {
        used_direction(self.mode, self.orientation.is_upright(), self.direction)
    }

    /// The kind of baseline of a paragraph in this style: central in vertical lines, but where text is turned sideways
    /// (CSS Writing Modes 4, 4.2). Takes no memory.
    pub fn baseline(&self) -> Baseline
        ensures { result ≡ baseline_of self.now.mode self.now.orientation }
    {
        match self.mode {
            WritingMode::VerticalRl | WritingMode::VerticalLr => self.orientation.baseline(),
            WritingMode::HorizontalTb | WritingMode::SidewaysRl | WritingMode::SidewaysLr => {
                Baseline::Alphabetic
            }
        }
    }
}

impl TextOrientation {
    fn is_upright(self) -> bool
        ensures { result ≡ is_upright self }
    {
        match self {
            TextOrientation::Upright => true,
            TextOrientation::Mixed | TextOrientation::Sideways => false,
        }
    }

    // The kind of baseline in vertical lines.
    fn baseline(self) -> Baseline
        ensures { result ≡ vertical_baseline self }
    {
        match self {
            TextOrientation::Sideways => Baseline::Alphabetic,
            TextOrientation::Mixed | TextOrientation::Upright => Baseline::Central,
        }
    }
}
