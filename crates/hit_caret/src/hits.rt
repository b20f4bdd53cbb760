//! The character at a point of a cell, and which of its edges is nearer.

ghost use Rattle.std.specs.Prelude.{◌≡◌, true, pos, ◌*ℤ◌};
ghost use Rattle.hit_caret.specs.Hits as spec;
ghost use Rattle.hit_caret.specs.Near.{IsNearCell, IsNearNumber};
ghost use Rattle.hit_caret.specs.Rects as rule;

use crate::cells::Cell;
use crate::rects::{Point, distance_from, extent_from};
use wm_modes::FlowSide;

/// The characters at a point: their text node, the places of the first one there and behind the last, and which of the two
/// is nearer.
#[derive(Clone, Copy, Debug, PartialEq, Eq)]
pub struct Hit {
    pub node: u32,
    pub first: u32,
    pub end: u32,
    pub place: u32,
}

/// The hit of a point that a cell holds.
pub(crate) fn hit_in(point: Point, cell: &Cell) -> Hit
    requires near { IsNearCell cell.now.rect }
    requires inside { rule.holds cell.now.rect point ≡ true }
    ensures { result ≡ spec.hit_in point cell.now }
{
    Hit {
        node: cell.node,
        first: cell.first,
        end: cell.end,
        place: place_in(cell, point),
    }
}

// The place before the cell's characters for a point in its leading half, else the one behind them.
fn place_in(cell: &Cell, point: Point) -> u32
    requires near { IsNearCell cell.now.rect }
    requires inside { rule.holds cell.now.rect point ≡ true }
    ensures { result ≡ spec.place_in cell.now point }
{
    if is_left(cell, point) == (cell.level % 2 == 0) {
        cell.first
    } else {
        cell.end
    }
}

// Whether a point of a cell lies in its half at line-left.
fn is_left(cell: &Cell, point: Point) -> bool
    requires near { IsNearCell cell.now.rect }
    requires inside { rule.holds cell.now.rect point ≡ true }
    ensures { result ≡ spec.is_left cell.now point }
{
    let line_left = cell.side(FlowSide::LineLeft);
    twice(distance_from(line_left, &cell.rect, point)) < extent_from(line_left, &cell.rect)
}

fn twice(number: i64) -> i64
    requires { IsNearNumber number }
    ensures { result ≡ pos 2 *ℤ number }
{
    2 * number
}
