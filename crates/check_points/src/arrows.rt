//! A caret that goes through a text by arrow keys, as a host moves it over the cells of a page.

ghost use Rattle.std.specs.Prelude.{◌≡◌, None, fold};
ghost use Rattle.hit_caret.specs.Cells.{cells};
ghost use Rattle.place_map.specs.Near.{AreNearParts};
ghost use Rattle.place_map.specs.Placed.{placed_of};
ghost use Rattle.check_points.specs.Arrows as rule;

use hit_caret::{Cell, CellVisitor, visit_cells};
use place_map::{Bound, Placed};

/// The places of a text to which a caret at one of its places goes: the nearest at which it can stand behind that one, and before it.
#[derive(Drop)]
pub struct Steps {
    pub node: u32,
    pub place: u32,
    pub ahead: Option<u32>,
    pub back: Option<u32>,
}

impl CellVisitor for Steps {
    ghost use Rattle.check_points.specs.Arrows.{seen};

    ghost seen = { seen };

    fn looks_into(&self, bound: &Bound) -> bool {
        bound.spans(self.node)
    }

    fn see(&mut self, cell: Cell) {
        if cell.node == self.node {
            self.see_place(cell.first);
            self.see_place(cell.end);
        }
    }
}

impl Steps {
    fn see_place(&mut self, place: u32)
        ensures { self.new ≡ rule.with_place self.old place }
    {
        if place > self.place {
            self.ahead = Some(self.ahead.map_or(place, |ahead| ahead.min(place)));
        }
        if place < self.place {
            self.back = Some(self.back.map_or(place, |back| back.max(place)));
        }
    }
}

/// Where the caret goes from a place of a text, in the order of the text, whatever the direction of its line.
pub fn steps_from(placed: &Placed, node: u32, place: u32) -> Steps
    requires near { AreNearParts (placed_of placed.now).parts }
    ensures { result ≡ fold rule.seen (record { node = node; place = place; ahead = None; back = None }) (cells (placed_of placed.now)) }
{
    let mut steps = Steps {
        node,
        place,
        ahead: None,
        back: None,
    };
    visit_cells(placed, &mut steps);
    steps
}
