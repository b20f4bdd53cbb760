//! What shifts a box, and how far it is shifted (CSS Positioned Layout 3, 3.1).

ghost use Rattle.std.specs.Prelude.{◌≡◌, ◌≤◌, ◌^◌, unsigned_abs};
ghost use Rattle.rel_shift.specs.Bounds.{IsWithin};
ghost use Rattle.rel_shift.specs.Own as rule;

use style_types::{Insets, Size};
use wm_modes::Side;

/// The inset of a side.
pub(crate) fn inset_on(insets: &Insets, side: Side) -> Size
    ensures { result ≡ rule.inset_on insets.now side }
{
    match side {
        Side::Top => insets.top,
        Side::Right => insets.right,
        Side::Bottom => insets.bottom,
        Side::Left => insets.left,
    }
}

/// A way on the page, in units of 1/64 px: `dx` to the right, `dy` downwards.
#[derive(Clone, Copy, Debug, PartialEq, Eq)]
pub struct Shift {
    pub dx: i64,
    pub dy: i64,
}

impl Shift {
    /// So far towards a side.
    pub(crate) fn towards(side: Side, by: i64) -> Shift
        requires { unsigned_abs by ≤ 2 ^ 32 }
        ensures { result ≡ rule.towards side by }
    {
        match side {
            Side::Top => Shift { dx: 0, dy: -by },
            Side::Right => Shift { dx: by, dy: 0 },
            Side::Bottom => Shift { dx: 0, dy: by },
            Side::Left => Shift { dx: -by, dy: 0 },
        }
    }

    /// Both shifts, one after the other.
    pub(crate) fn plus(self, other: Shift) -> Shift
        requires first { IsWithin (2 ^ 60) self }
        requires second { IsWithin (2 ^ 60) other }
        ensures { result ≡ rule.plus self other }
    {
        Shift {
            dx: self.dx + other.dx,
            dy: self.dy + other.dy,
        }
    }
}
