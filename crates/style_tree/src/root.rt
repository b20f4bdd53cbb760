//! `html` and `body`: what the page takes from `body` (CSS Writing Modes 4, 8).

ghost use Rattle.std.specs.Prelude.{◌≡◌};
ghost use Rattle.style_types.specs.Style.{IsBounded};
ghost use Rattle.cascade.specs.Winners.{AreSaidWinners};
ghost use Rattle.style_tree.specs.Styling as definitions;

use computed::compute;
use css_types::Winners;
use style_types::{Display, Style, TextOrientation};
use wm_modes::Direction;

/// The style of `body`, which has the mode that its own winners give it and never turns.
pub(crate) fn unturned(html: &Style, winners: &Winners) -> Style
    requires html { IsBounded html.now }
    requires winners { AreSaidWinners winners.now.items }
    ensures style { result ≡ definitions.unturned html.now winners.now.items }
    ensures bounded { IsBounded result }
{
    let mode = compute(html, winners).mode;
    compute(&Style { mode, ..*html }, winners)
}

/// The style from which the boxes of `html` are made: its computed one in the used mode and direction of `body`, a flow
/// root.
pub(crate) fn root_style(html: &Style, body: &Style) -> Style
    requires html { IsBounded html.now }
    ensures style { result ≡ definitions.root_style html.now body.now }
    ensures bounded { IsBounded result }
{
    let direction = body.used_direction();
    Style {
        display: Display::FlowRoot,
        mode: body.mode,
        direction,
        orientation: orientation_in(direction, html.orientation),
        ..*html
    }
}

// Upright text can't be set from right to left.
fn orientation_in(dir: Direction, orientation: TextOrientation) -> TextOrientation
    ensures { result ≡ definitions.orientation_in dir orientation }
{
    match (dir, orientation) {
        (Direction::Rtl, TextOrientation::Upright) => TextOrientation::Mixed,
        (_, orientation) => orientation,
    }
}
