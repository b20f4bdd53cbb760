//! Rectangles of the page, measured from one of their sides (CSS Writing Modes 4, 6.1 and 6.2).

ghost use Rattle.std.specs.Prelude.{◌≡◌, ◌≤◌, ◌*◌, ◌^◌, true, pos, ◌+ℤ◌, ◌-ℤ◌, ◌≤ℤ◌, ◌<ℤ◌, unsigned_abs};
ghost use Rattle.hit_caret.specs.Near.{IsNearCell, IsNearNumber};
ghost use Rattle.hit_caret.specs.Rects as rule;
ghost use Rattle.wm_modes.specs.Near.{IsNear};

use wm_modes::{Rect, Side};

/// A point of the page, in units of 1/64 px: `x` grows to the right, `y` downwards.
#[derive(Clone, Copy, Debug, PartialEq, Eq)]
pub struct Point {
    pub x: i64,
    pub y: i64,
}

/// Whether a point lies in a rectangle, to which its right and its bottom edge don't belong.
pub(crate) fn holds(rect: &Rect, point: Point) -> bool
    requires rect { IsNearCell rect.now }
    ensures { result ≡ rule.holds rect.now point }
{
    is_within(rect.x, rect.w, point.x) && is_within(rect.y, rect.h, point.y)
}

fn is_within(start: i64, extent: i64, place: i64) -> bool
    requires start { unsigned_abs start ≤ 4 * 2 ^ 60 }
    requires extent { IsNearNumber extent }
    ensures { result ≡ rule.is_within start extent place }
{
    start <= place && place < start + extent
}

/// How far a rectangle reaches from a side to the opposite one.
pub(crate) fn extent_from(side: Side, rect: &Rect) -> i64
    ensures { result ≡ rule.extent_from side rect.now }
{
    match side {
        Side::Left | Side::Right => rect.w,
        Side::Top | Side::Bottom => rect.h,
    }
}

/// The part of a rectangle that begins at this distance from a side and has this extent.
pub(crate) fn part_from(side: Side, rect: &Rect, distance: i64, extent: i64) -> Rect
    requires rect { IsNear rect.now }
    requires distance { IsNearNumber distance }
    requires extent { IsNearNumber extent }
    ensures value { result ≡ rule.part_from side rect.now distance extent }
    ensures near { IsNearCell result }
{
    match side {
        Side::Left => Rect {
            x: rect.x + distance,
            y: rect.y,
            w: extent,
            h: rect.h,
        },
        Side::Right => Rect {
            x: before_end(rect.x + rect.w, distance, extent),
            y: rect.y,
            w: extent,
            h: rect.h,
        },
        Side::Top => Rect {
            x: rect.x,
            y: rect.y + distance,
            w: rect.w,
            h: extent,
        },
        Side::Bottom => Rect {
            x: rect.x,
            y: before_end(rect.y + rect.h, distance, extent),
            w: rect.w,
            h: extent,
        },
    }
}

// Where a part begins that ends at this distance from an end.
fn before_end(end: i64, distance: i64, extent: i64) -> i64
    requires end { unsigned_abs end ≤ 2 * 2 ^ 60 }
    requires distance { IsNearNumber distance }
    requires extent { IsNearNumber extent }
    ensures value { result ≡ end -ℤ distance -ℤ extent }
    ensures near { unsigned_abs result ≤ 4 * 2 ^ 60 }
{
    end - distance - extent
}

/// The edge of a rectangle at a side, a rectangle without extent there.
pub(crate) fn edge(side: Side, rect: &Rect) -> Rect
    requires rect { IsNearCell rect.now }
    ensures { result ≡ rule.edge side rect.now }
{
    match side {
        Side::Left => Rect {
            x: rect.x,
            y: rect.y,
            w: 0,
            h: rect.h,
        },
        Side::Right => Rect {
            x: rect.x + rect.w,
            y: rect.y,
            w: 0,
            h: rect.h,
        },
        Side::Top => Rect {
            x: rect.x,
            y: rect.y,
            w: rect.w,
            h: 0,
        },
        Side::Bottom => Rect {
            x: rect.x,
            y: rect.y + rect.h,
            w: rect.w,
            h: 0,
        },
    }
}

/// How many points of a rectangle lie between one of its points and a side.
pub(crate) fn distance_from(side: Side, rect: &Rect, point: Point) -> i64
    requires rect { IsNearCell rect.now }
    requires inside { rule.holds rect.now point ≡ true }
    ensures value { result ≡ rule.distance_from side rect.now point }
    ensures near { IsNearNumber result }
{
    match side {
        Side::Left => from_first(rect.x, rect.w, point.x),
        Side::Right => to_last(rect.x, rect.w, point.x),
        Side::Top => from_first(rect.y, rect.h, point.y),
        Side::Bottom => to_last(rect.y, rect.h, point.y),
    }
}

// How far a place is from the first one.
fn from_first(start: i64, extent: i64, place: i64) -> i64
    requires start { unsigned_abs start ≤ 4 * 2 ^ 60 }
    requires extent { IsNearNumber extent }
    requires within { rule.is_within start extent place ≡ true }
    ensures value { result ≡ place -ℤ start }
    ensures first { pos 0 ≤ℤ result }
    ensures last { result <ℤ extent }
{
    place - start
}

// How far a place is from the last one.
fn to_last(start: i64, extent: i64, place: i64) -> i64
    requires start { unsigned_abs start ≤ 4 * 2 ^ 60 }
    requires extent { IsNearNumber extent }
    requires within { rule.is_within start extent place ≡ true }
    ensures value { result ≡ start +ℤ extent -ℤ pos 1 -ℤ place }
    ensures near { IsNearNumber result }
{
    extent - 1 - from_first(start, extent, place)
}

// The last place of an extent.
fn last(start: i64, extent: i64) -> i64
    requires start { unsigned_abs start ≤ 4 * 2 ^ 60 }
    requires extent { IsNearNumber extent }
    ensures value { result ≡ start +ℤ extent -ℤ pos 1 }
    ensures near { unsigned_abs result ≤ 6 * 2 ^ 60 }
{
    start + extent - 1
}

/// A point, moved along one axis to where it touches a side of a rectangle from inside.
pub(crate) fn touching(side: Side, rect: &Rect, point: Point) -> Point
    requires rect { IsNearCell rect.now }
    ensures { result ≡ rule.touching side rect.now point }
{
    match side {
        Side::Left => Point {
            x: rect.x,
            y: point.y,
        },
        Side::Right => Point {
            x: last(rect.x, rect.w),
            y: point.y,
        },
        Side::Top => Point {
            x: point.x,
            y: rect.y,
        },
        Side::Bottom => Point {
            x: point.x,
            y: last(rect.y, rect.h),
        },
    }
}
