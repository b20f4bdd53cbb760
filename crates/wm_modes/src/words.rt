//! The keywords of writing modes and directions (CSS Writing Modes 4, 2.1 and 3.2).

ghost use Rattle.std.specs.Prelude.{◌≡◌, ◌≤◌, length};

use crate::mode::{Direction, WritingMode};

impl WritingMode {
    ghost use Rattle.wm_modes.specs.Words.{mode_word};

    /// The keyword of the mode, as a style sheet and a listing write it (CSS Writing Modes 4, 3.2).
    #[tactic(auto, unfolding(crate::specs::Words::mode_word))]
    pub fn word(self) -> &'static str
        ensures value { result.now ≡ mode_word self }
        ensures short { length result.now ≤ 13 }
    {
        match self {
            WritingMode::HorizontalTb => "horizontal-tb",
            WritingMode::VerticalRl => "vertical-rl",
            WritingMode::VerticalLr => "vertical-lr",
            WritingMode::SidewaysRl => "sideways-rl",
            WritingMode::SidewaysLr => "sideways-lr",
        }
    }
}

impl Direction {
    ghost use Rattle.wm_modes.specs.Words.{direction_word};

    /// The keyword of the direction, as a style sheet and a listing write it (CSS Writing Modes 4, 2.1).
    #[tactic(auto, unfolding(crate::specs::Words::direction_word))]
    pub fn word(self) -> &'static str
        ensures value { result.now ≡ direction_word self }
        ensures short { length result.now ≤ 3 }
    {
        match self {
            Direction::Ltr => "ltr",
            Direction::Rtl => "rtl",
        }
    }
}
