//! Where the caret stands at a place of a text.

ghost use Rattle.std.specs.Prelude.{◌≡◌, IfSome};
ghost use Rattle.hit_caret.specs.Carets as spec;
ghost use Rattle.hit_caret.specs.Near.{IsNearCell};
ghost use Rattle.place_map.specs.Near.{AreNearParts};
ghost use Rattle.place_map.specs.Placed.{placed_of};

use crate::cells::Cell;
use crate::rects::{Point, extent_from, touching};
use crate::visiting::{CellVisitor, visit_cells};
use place_map::{Bound, Placed};
use wm_modes::{FlowSide, Rect};

/// The caret at a place of a text, a rectangle without extent along its line: the leading edge of the first cell of the text
/// that begins there, else the trailing edge of the first one that ends there, or none where no cell does either. The page
/// is as `visit_cells` wants it. Takes no memory.
pub fn caret(placed: &Placed, node: u32, place: u32) -> Option<Rect>
    requires near { AreNearParts (placed_of placed.now).parts }
    ensures { result ≡ spec.caret (placed_of placed.now) node place }
{
    let found = first_cells(placed, node, place);
    match (found.beginning, found.ending) {
        (Some(cell), _) => Some(cell.leading_edge()),
        (None, Some(cell)) => Some(cell.trailing_edge()),
        (None, None) => None,
    }
}

/// A point at which `hit` gives the place of a caret on a leading edge, where no later cell holds it: the point of the
/// caret's cell that touches the edge and is nearest to line-over. None where there is no such caret, or the cell has an
/// extent below 2 along its line or below 1 across it. The page is as `visit_cells` wants it. Takes no memory.
pub fn caret_point(placed: &Placed, node: u32, place: u32) -> Option<Point>
    requires near { AreNearParts (placed_of placed.now).parts }
    ensures { result ≡ spec.caret_point (placed_of placed.now) node place }
{
    match first_cells(placed, node, place).beginning {
        Some(cell) => point_of(&cell),
        None => None,
    }
}

// The point of a cell at its leading edge and nearest to line-over, if it is wide enough.
fn point_of(cell: &Cell) -> Option<Point>
    requires near { IsNearCell cell.now.rect }
    ensures { result ≡ spec.point_if (spec.is_wide cell.now) cell.now }
{
    let line_over = cell.side(FlowSide::LineOver);
    let along = extent_from(cell.side(FlowSide::LineLeft), &cell.rect);
    let across = extent_from(line_over, &cell.rect);
    if along >= 2 && across >= 1 {
        let corner = Point {
            x: cell.rect.x,
            y: cell.rect.y,
        };
        let over = touching(line_over, &cell.rect, corner);
        Some(touching(cell.leading(), &cell.rect, over))
    } else {
        None
    }
}

// The first cells of a text that begin and that end at a place of it.
#[derive(Drop)]
struct FirstCells {
    node: u32,
    place: u32,
    beginning: Option<Cell>,
    ending: Option<Cell>,
}

fn first_cells(placed: &Placed, node: u32, place: u32) -> FirstCells
    requires near { AreNearParts (placed_of placed.now).parts }
    ensures beginning { result.beginning ≡ spec.first_beginning (placed_of placed.now) node place }
    ensures ending { result.ending ≡ spec.first_ending (placed_of placed.now) node place }
    ensures near_beginning { IfSome result.beginning (λ c. IsNearCell c.rect) }
    ensures near_ending { IfSome result.ending (λ c. IsNearCell c.rect) }
{
    let mut first = FirstCells {
        node,
        place,
        beginning: None,
        ending: None,
    };
    visit_cells(placed, &mut first);
    first
}

impl CellVisitor for FirstCells {
    ghost use Rattle.hit_caret.specs.Carets.{begins_at, ends_at, found_first};

    ghost seen = { λ s c. record {
      node = s.node;
      place = s.place;
      beginning = found_first s.beginning (begins_at s.node s.place c) c;
      ending = found_first s.ending (ends_at s.node s.place c) c;
    } };

    fn looks_into(&self, bound: &Bound) -> bool {
        bound.spans(self.node)
    }

    fn see(&mut self, cell: Cell) {
        if self.beginning.is_none() && cell.node == self.node && cell.first == self.place {
            self.beginning = Some(cell);
        }
        if self.ending.is_none() && cell.node == self.node && cell.end == self.place {
            self.ending = Some(cell);
        }
    }
}
