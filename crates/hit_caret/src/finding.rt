//! Which character of a page stands at a point.

ghost use Rattle.std.specs.Prelude.{◌≡◌};
ghost use Rattle.hit_caret.specs.Hits as spec;
ghost use Rattle.place_map.specs.Near.{AreNearParts};
ghost use Rattle.place_map.specs.Placed.{placed_of};

use crate::cells::Cell;
use crate::hits::{Hit, hit_in};
use crate::rects::{Point, holds};
use crate::visiting::{CellVisitor, visit_cells};
use place_map::{Bound, Placed};

/// The hit of a point, in units of 1/64 px from the page's left and top edges: of the last cell that holds it, or none where
/// no cell does. The page is as `visit_cells` wants it. Takes no memory.
pub fn hit(placed: &Placed, x: i64, y: i64) -> Option<Hit>
    requires near { AreNearParts (placed_of placed.now).parts }
    ensures { result ≡ spec.hit (placed_of placed.now) (record { x = x; y = y }) }
{
    let mut last = LastHit {
        point: Point { x, y },
        found: None,
    };
    visit_cells(placed, &mut last);
    last.found
}

// The hit so far: of the last cell that holds the point.
#[derive(Drop)]
struct LastHit {
    point: Point,
    found: Option<Hit>,
}

impl CellVisitor for LastHit {
    ghost use Rattle.std.specs.Prelude.{Some, if◌then◌else◌};
    ghost use Rattle.hit_caret.specs.Hits.{hit_in};
    ghost use Rattle.hit_caret.specs.Rects.{holds};

    ghost seen = { λ last c. record { point = last.point; found = if holds c.rect last.point then Some (hit_in last.point c) else last.found } };

    fn looks_into(&self, bound: &Bound) -> bool {
        bound.holds(self.point.x, self.point.y)
    }

    fn see(&mut self, cell: Cell) {
        if holds(&cell.rect, self.point) {
            self.found = Some(hit_in(self.point, &cell));
        }
    }
}
