//! Which rectangles of a page meet.

ghost use Rattle.std.specs.Prelude.{◌≡◌, false, ◌<◌, ◌^◌, ◌+ℤ◌, ◌≤ℤ◌, int_lt, unsigned_abs};
ghost use Rattle.page_window.specs.Rects as rule;
ghost use Rattle.place_map.specs.Near.{HasEdges};

use place_map::Bound;
use wm_modes::Rect;

/// Whether two rectangles have a place in common.
pub(crate) fn meets(rect: &Rect, own: &Rect) -> bool
    requires rect { HasEdges rect.now }
    requires own { HasEdges own.now }
    ensures { result ≡ rule.meets rect.now own.now }
{
    overlaps(rect.x, rect.w, own.x, own.w) && overlaps(rect.y, rect.h, own.y, own.h)
}

// Whether two stretches along an axis have a place in common.
#[tactic(auto, unfolding(crate::specs::Rects::overlaps))]
fn overlaps(start: i64, extent: i64, other: i64, other_extent: i64) -> bool
    requires end { unsigned_abs (start +ℤ extent) < 2 ^ 63 }
    requires other_end { unsigned_abs (other +ℤ other_extent) < 2 ^ 63 }
    ensures { result ≡ rule.overlaps start extent other other_extent }
{
    is_before_end(start, other, other_extent) && is_before_end(other, start, extent)
}

// Whether a place along an axis is before the end of a stretch.
fn is_before_end(place: i64, start: i64, extent: i64) -> bool
    requires end { unsigned_abs (start +ℤ extent) < 2 ^ 63 }
    ensures { result ≡ int_lt place (start +ℤ rule.shown extent) }
{
    if extent == 0 {
        place <= start
    } else {
        place < start + extent
    }
}

/// Whether a rectangle can meet what lies in a bound. Where it can't, it meets nothing that does.
pub(crate) fn reaches(rect: &Rect, bound: &Bound) -> bool
    requires rect { HasEdges rect.now }
    ensures { result ≡ false → rule.MeetsNone rect.now bound.now }
{
    reaches_along(rect.x, rect.w, bound.left, bound.right)
        && reaches_along(rect.y, rect.h, bound.top, bound.bottom)
}

// Whether a stretch can overlap what lies between two edges. At the last edge itself stands what has no extent, which is taken as
// 1 and so ends behind it.
fn reaches_along(start: i64, extent: i64, first: i64, last: i64) -> bool
    requires end { unsigned_abs (start +ℤ extent) < 2 ^ 63 }
    ensures { result ≡ false → rule.OverlapsNone start extent first last }
{
    start <= last && is_before_end(first, start, extent)
}
