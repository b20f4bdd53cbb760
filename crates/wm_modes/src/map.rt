//! From a flow to the page and back (CSS Writing Modes 4, 6.4).

ghost use Rattle.std.specs.Prelude.{◌≡◌, ◌≤◌, ◌*◌, ◌^◌, unsigned_abs};
ghost use Rattle.wm_modes.specs.Map as map;
ghost use Rattle.wm_modes.specs.Near.{IsNear, IsNearFlow};

use crate::mode::{Direction, WritingMode};
use crate::rects::{FlowRect, Rect};

/// The page's rectangle of a flow rectangle in a content area (CSS Writing Modes 4, 6.4): `dir` is the
/// used direction of the containing block. All numbers are within 2^60 of 0.
pub fn to_physical(mode: WritingMode, dir: Direction, area: Rect, r: FlowRect) -> Rect
    requires area { IsNear area }
    requires rect { IsNearFlow r }
    ensures { result ≡ map.map_of mode dir area r }
{
    match mode {
        WritingMode::HorizontalTb => Rect {
            x: area.x + along_line(dir, area.w, r.i, r.inline),
            y: area.y + r.b,
            w: r.inline,
            h: r.block,
        },
        WritingMode::VerticalRl | WritingMode::SidewaysRl => Rect {
            x: area.x + from_other_end(area.w, r.b, r.block),
            y: area.y + along_line(dir, area.h, r.i, r.inline),
            w: r.block,
            h: r.inline,
        },
        WritingMode::VerticalLr => Rect {
            x: area.x + r.b,
            y: area.y + along_line(dir, area.h, r.i, r.inline),
            w: r.block,
            h: r.inline,
        },
        WritingMode::SidewaysLr => {
            let left = along_line(dir, area.h, r.i, r.inline);
            let top = from_other_end(area.h, left, r.inline);
            Rect {
                x: area.x + r.b,
                y: area.y + top,
                w: r.block,
                h: r.inline,
            }
        }
    }
}

/// The flow rectangle of a rectangle of the page in a content area: the inverse of `to_physical`, under
/// the same conditions.
pub fn to_flow(mode: WritingMode, dir: Direction, area: Rect, r: Rect) -> FlowRect
    requires area { IsNear area }
    requires rect { IsNear r }
    ensures { result ≡ map.unmap_of mode dir area r }
{
    let x = r.x - area.x;
    let y = r.y - area.y;
    match mode {
        WritingMode::HorizontalTb => FlowRect {
            i: along_line(dir, area.w, x, r.w),
            b: y,
            inline: r.w,
            block: r.h,
        },
        WritingMode::VerticalRl | WritingMode::SidewaysRl => FlowRect {
            i: along_line(dir, area.h, y, r.h),
            b: from_other_end(area.w, x, r.w),
            inline: r.h,
            block: r.w,
        },
        WritingMode::VerticalLr => FlowRect {
            i: along_line(dir, area.h, y, r.h),
            b: x,
            inline: r.h,
            block: r.w,
        },
        WritingMode::SidewaysLr => {
            let left = from_other_end(area.h, y, r.h);
            FlowRect {
                i: along_line(dir, area.h, left, r.h),
                b: x,
                inline: r.h,
                block: r.w,
            }
        }
    }
}

// The distance of a piece from the other end of a whole.
fn from_other_end(whole: i64, start: i64, extent: i64) -> i64
    requires whole { unsigned_abs whole ≤ 2 ^ 60 }
    requires start { unsigned_abs start ≤ 4 * 2 ^ 60 }
    requires extent { unsigned_abs extent ≤ 2 ^ 60 }
    ensures value { result ≡ map.from_other_end whole start extent }
    ensures near { unsigned_abs result ≤ 6 * 2 ^ 60 }
{
    whole - start - extent
}

// The distance from line-left of a piece that begins at this distance from inline-start, and back again.
fn along_line(dir: Direction, whole: i64, start: i64, extent: i64) -> i64
    requires whole { unsigned_abs whole ≤ 2 ^ 60 }
    requires start { unsigned_abs start ≤ 4 * 2 ^ 60 }
    requires extent { unsigned_abs extent ≤ 2 ^ 60 }
    ensures value { result ≡ map.along_line dir whole start extent }
    ensures near { unsigned_abs result ≤ 6 * 2 ^ 60 }
{
    match dir {
        Direction::Ltr => start,
        Direction::Rtl => from_other_end(whole, start, extent),
    }
}
