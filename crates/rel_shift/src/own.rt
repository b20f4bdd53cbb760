//! How far its insets shift a relatively positioned element (CSS Positioned Layout 3, 3.4; CSS 2, 9.4.3).

ghost use Rattle.std.specs.Prelude.{◌≡◌, ◌^◌, IfSome};
ghost use Rattle.rel_shift.specs.Bounds.{IsWithin};
ghost use Rattle.rel_shift.specs.Own as rule;
ghost use Rattle.style_types.specs.Style.{AreInsets, IsExtent};

use crate::containing::Containing;
use crate::insets::Shift;
use style_types::Insets;
use wm_modes::{Direction, WritingMode};

/// The shift of an element with these insets, by the mode and the used direction of its containing block, its inline size
/// and its definite block size. On each axis of the containing block the inset of the start side counts, or else that of
/// the end side; a percentage of left or right is of the width, of top or bottom of the height, and `auto` where this isn't
/// known. Both sizes are from 0 to 2^32 units, lengths among the insets within 2^32 of 0, and percentages within
/// 9,999,999.99.
pub fn own_shift(
    insets: &Insets,
    mode: WritingMode,
    dir: Direction,
    inline: i64,
    block: Option<i64>,
) -> Shift
    requires inline { IsExtent inline }
    requires block { IfSome block IsExtent }
    requires insets { AreInsets insets.now }
    ensures value { result ≡ rule.own_shift insets.now (record { mode = mode; dir = dir; inline = inline; block = block }) }
    ensures within { IsWithin (2 ^ 32) result }
{
    let containing = Containing {
        mode,
        dir,
        inline,
        block,
    };
    containing.shift(insets)
}
