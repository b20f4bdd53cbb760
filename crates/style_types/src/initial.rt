//! The initial style (CSS 2, 6.1.1).

ghost use Rattle.std.specs.Prelude.{◌≡◌};
ghost use Rattle.style_types.specs.Initial.{initial};
ghost use Rattle.style_types.specs.Style.{IsBounded};

use crate::style::{
    Align, Combine, Display, Insets, LineHeight, SideSizes, SideWidths, Size, Style,
    TextOrientation, UnicodeBidi,
};
use wm_modes::{Direction, WritingMode};

impl Style {
    /// The style of the root's parent: each field has what the initial value of its property computes to (a law of
    /// the crate `defaulting`). Takes no memory.
    #[tactic(auto, unfolding(crate::specs::Initial::initial))]
    pub fn initial() -> Style
        ensures initial { result ≡ initial }
        ensures bounded { IsBounded result }
    {
        let none = SideSizes {
            top: Size::Length(0),
            right: Size::Length(0),
            bottom: Size::Length(0),
            left: Size::Length(0),
        };
        Style {
            display: Display::Inline,
            mode: WritingMode::HorizontalTb,
            direction: Direction::Ltr,
            orientation: TextOrientation::Mixed,
            combine: Combine::Never,
            bidi: UnicodeBidi::Normal,
            font_size: 1024,
            face: 0,
            line_height: LineHeight::Normal,
            align: Align::Start,
            shift: 0,
            width: Size::Auto,
            height: Size::Auto,
            min_width: Size::Auto,
            min_height: Size::Auto,
            max_width: Size::Auto,
            max_height: Size::Auto,
            margin: none,
            padding: none,
            border: SideWidths {
                top: 0,
                right: 0,
                bottom: 0,
                left: 0,
            },
            relative: false,
            insets: Insets {
                top: Size::Auto,
                right: Size::Auto,
                bottom: Size::Auto,
                left: Size::Auto,
            },
        }
    }
}
