//! Writing modes and directions (CSS Writing Modes 4, 2.1, 3.2 and 5.1).

ghost use Rattle.std.specs.Prelude.{◌≡◌};
ghost use Rattle.wm_modes.specs.Mode as modes;

/// The writing mode of a box (CSS Writing Modes 4, 3.2).
#[derive(Clone, Copy, Debug, PartialEq, Eq)]
pub enum WritingMode {
    HorizontalTb,
    VerticalRl,
    VerticalLr,
    SidewaysRl,
    SidewaysLr,
}

/// The direction of a box's lines (CSS Writing Modes 4, 2.1).
#[derive(Clone, Copy, Debug, PartialEq, Eq)]
pub enum Direction {
    Ltr,
    Rtl,
}

impl WritingMode {
    /// Whether lines run across the page (CSS Writing Modes 4, 3.2).
    pub fn is_horizontal(self) -> bool
        ensures { result ≡ modes.is_horizontal self }
    {
        match self {
            WritingMode::HorizontalTb => true,
            WritingMode::VerticalRl
            | WritingMode::VerticalLr
            | WritingMode::SidewaysRl
            | WritingMode::SidewaysLr => false,
        }
    }

    /// Whether text can stand upright in the lines (CSS Writing Modes 4, 5.1).
    pub fn has_upright_text(self) -> bool
        ensures { result ≡ modes.has_upright_text self }
    {
        match self {
            WritingMode::VerticalRl | WritingMode::VerticalLr => true,
            WritingMode::HorizontalTb | WritingMode::SidewaysRl | WritingMode::SidewaysLr => false,
        }
    }

    /// Whether the inline axes of both modes are one axis of the page; boxes of other modes are orthogonal (CSS
    /// Writing Modes 4, 7.3).
    pub fn is_parallel(self, other: WritingMode) -> bool
        ensures { result ≡ modes.are_parallel self other }
    {
        self.is_horizontal() == other.is_horizontal()
    }
}
