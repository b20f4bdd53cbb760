//! Boxes that turn inside boxes, of which there may be six on a line of ancestors (CSS Writing Modes 4, 7.3).

ghost use Rattle.std.specs.Prelude.{◌≡◌};
ghost use Rattle.box_gen.specs.Orthogonal as rule;

use wm_modes::WritingMode;

/// How many boxes on a line of ancestors may be orthogonal to their containing blocks.
pub(crate) const MOST_ORTHOGONAL: u32 = 6;

/// How many boxes are orthogonal to their containing blocks with a box of its own mode, where with its containing block of this
/// mode so many are; seven stand for more.
pub(crate) fn turns_in(mode: WritingMode, own: WritingMode, turns: u32) -> u32
    ensures { result ≡ rule.turns_in mode own turns }
{
    if mode.is_parallel(own) {
        turns
    } else {
        turns.saturating_add(1).min(7)
    }
}
