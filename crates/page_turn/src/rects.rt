//! Rectangles of the flow's page on the page of another mode (CSS Writing Modes 4, 6.2 and 6.4).

ghost use Rattle.std.specs.Prelude.{◌≡◌, ◌≤◌, ◌*◌, ◌^◌, unsigned_abs};
ghost use Rattle.page_turn.specs.Rects as rule;
ghost use Rattle.place_map.specs.Near.{HasEdges};
ghost use Rattle.wm_modes.specs.Map as map;
ghost use Rattle.wm_modes.specs.Near.{IsNear};
ghost use Rattle.wm_modes.specs.Sides as sides;
ghost use Rattle.wm_modes.specs.declared.mode.Direction.TheVariants as directions;
ghost use Rattle.wm_units.specs.View.{IsView};

use wm_modes::{Direction, FlowSide, Rect, Side, WritingMode, side_of};
use wm_units::View;

/// What a page of the flow is turned by: the mode that it is turned to, and the view, whose inline and block sizes both pages
/// have.
#[derive(Clone, Copy)]
pub(crate) struct Turn {
    pub(crate) mode: WritingMode,
    pub(crate) view: View,
    ghost turning: { rule.IsTurning mode },
    ghost bounded: { IsView view },
}

impl Turn {
    /// A rectangle of the flow's page, turned: as far from line-left and from block-start.
    pub(crate) fn rect(self, rect: Rect) -> Rect
        requires near { IsNear rect }
        ensures value { result ≡ rule.rect_turned self.mode self.view rect }
        ensures edges { HasEdges result }
    {
        let along = from_side(
            self.side(FlowSide::LineLeft),
            self.view.inline,
            rect.x,
            rect.w,
        );
        let across = from_side(
            self.side(FlowSide::BlockStart),
            self.view.block,
            rect.y,
            rect.h,
        );
        if self.mode.is_horizontal() {
            Rect {
                x: along,
                y: across,
                w: rect.w,
                h: rect.h,
            }
        } else {
            Rect {
                x: across,
                y: along,
                w: rect.h,
                h: rect.w,
            }
        }
    }

    // Which side of the page a side of the flow is; the direction counts for neither line-left nor block-start.
    fn side(self, side: FlowSide) -> Side
        ensures { result ≡ sides.side_of self.mode directions.Ltr side }
    {
        side_of(self.mode, Direction::Ltr, side)
    }
}

// The distance from the top or the left of the page of what stands this far from one of its sides.
fn from_side(side: Side, whole: i64, start: i64, extent: i64) -> i64
    requires whole { unsigned_abs whole ≤ 2 ^ 60 }
    requires start { unsigned_abs start ≤ 2 ^ 60 }
    requires extent { unsigned_abs extent ≤ 2 ^ 60 }
    ensures value { result ≡ rule.from_side side whole start extent }
    ensures near { unsigned_abs result ≤ 3 * 2 ^ 60 }
{
    match side {
        Side::Top | Side::Left => start,
        Side::Right | Side::Bottom => from_other_end(whole, start, extent),
    }
}

// The distance of a piece from the other end of a whole.
fn from_other_end(whole: i64, start: i64, extent: i64) -> i64
    requires whole { unsigned_abs whole ≤ 2 ^ 60 }
    requires start { unsigned_abs start ≤ 2 ^ 60 }
    requires extent { unsigned_abs extent ≤ 2 ^ 60 }
    ensures value { result ≡ map.from_other_end whole start extent }
    ensures near { unsigned_abs result ≤ 3 * 2 ^ 60 }
{
    whole - start - extent
}
