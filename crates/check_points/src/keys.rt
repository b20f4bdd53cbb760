//! A caret on a page of one run, moved by arrow keys.

ghost use Rattle.std.specs.Prelude.{IfOk};
ghost use Rattle.fragment_types.specs.Fragment.{kind_of};
ghost use Rattle.place_map.specs.Near.{AreNearParts, IsNearKind};
ghost use Rattle.place_map.specs.Placed.{parts_of, placed_of};

use crate::arrows::steps_from;
use fragment_types::{BoxName, FragmentKind, Glyphs, RunUnit, RunUnits, UnitKind};
use hit_caret::{Cell, CellVisitor, caret, visit_cells};
use place_map::{Placed, PlacedPart, PlacedParts};
use std::alloc::{AllocError, Global};
use std::rc::Rc;
use std::test::*;
use wm_modes::Rect;
use wm_units::View;

const VIEW: View = View {
    inline: 12_800,
    block: 6_400,
};

/// The text node.
const TEXT: u32 = 3;

/// The name of its runs.
const NAME: BoxName = BoxName {
    node: TEXT,
    ordinal: 0,
};

/// The rectangle of a run of three letters of 8 px from right to left. The text goes on behind a space at which its line ends.
const RUN: Rect = Rect {
    x: 0,
    y: 0,
    w: 1_536,
    h: 1_024,
};

/// The rectangle of the letter on the next line.
const NEXT: Rect = Rect {
    x: 1_024,
    y: 1_024,
    w: 512,
    h: 1_024,
};

fn page(alloc: Global) -> Result<Placed, AllocError>
    ensures { IfOk result (λ placed. AreNearParts (placed_of placed).parts) }
{
    let mut units = Vec::new(alloc);
    units.push(RunUnit::new(alloc, 2, 3, 512, &Glyphs::one('ג'))?)?;
    units.push(RunUnit::new(alloc, 1, 2, 512, &Glyphs::one('ב'))?)?;
    units.push(RunUnit::new(alloc, 0, 1, 512, &Glyphs::one('א'))?)?;
    Ok(Placed {
        view: VIEW,
        root: PlacedPart::new(NAME, RUN, run_of(alloc, units)?, next_line(alloc)?),
    })
}

// One letter more, on the next line.
fn next_line(alloc: Global) -> Result<PlacedParts, AllocError>
    ensures { IfOk result (λ parts. AreNearParts (parts_of parts.items)) }
{
    let mut units = Vec::new(alloc);
    units.push(RunUnit::new(alloc, 4, 5, 512, &Glyphs::one('ד'))?)?;
    let mut parts = Vec::new(alloc);
    parts.push(PlacedPart::new(NAME, NEXT, run_of(alloc, units)?, Vec::new(alloc)))?;
    Ok(parts)
}

// A run from right to left of these units.
fn run_of(alloc: Global, units: RunUnits) -> Result<FragmentKind, AllocError>
    ensures { IfOk result (λ kind. IsNearKind (kind_of kind)) }
{
    Ok(FragmentKind::Run {
        form: UnitKind::Along,
        level: 1,
        natural: None,
        units: Rc::new(alloc, units)?,
    })
}

// The last cell of a page, by a visitor that says nothing of bounds.
#[derive(Drop)]
struct LastCell {
    cell: Option<Cell>,
}

impl CellVisitor for LastCell {
    ghost use Rattle.std.specs.Prelude.{Some};

    ghost seen = { λ _ cell. record { cell = Some cell } };

    fn see(&mut self, cell: Cell) {
        self.cell = Some(cell);
    }
}

#[test]
fn a_visitor_that_says_nothing_of_bounds_sees_all(rt: HostRuntime) -> Result<(), Fail> {
    let page = page(rt.alloc())?;
    let mut last = LastCell { cell: None };
    visit_cells(&page, &mut last);
    assert_eq!(rt; last.cell.map(|cell| cell.end), Some(5));
    Ok(())
}

#[test]
fn carets_go_through_a_text(rt: HostRuntime) -> Result<(), Fail> {
    let page = page(rt.alloc())?;
    let first = steps_from(&page, TEXT, 0);
    assert_eq!(rt; (first.back, first.ahead), (None, Some(1)));
    let second = steps_from(&page, TEXT, 1);
    assert_eq!(rt; (second.back, second.ahead), (Some(0), Some(2)));
    let line_end = steps_from(&page, TEXT, 3);
    assert_eq!(rt; (line_end.back, line_end.ahead), (Some(2), Some(4)));
    let line_start = steps_from(&page, TEXT, 4);
    assert_eq!(rt; (line_start.back, line_start.ahead), (Some(3), Some(5)));
    let last = steps_from(&page, TEXT, 5);
    assert_eq!(rt; (last.back, last.ahead), (Some(4), None));
    let elsewhere = steps_from(&page, TEXT + 1, 0);
    assert_eq!(rt; (elsewhere.back, elsewhere.ahead), (None, None));
    Ok(())
}

#[test]
fn carets_stand_to_the_left_of_what_was_passed(rt: HostRuntime) -> Result<(), Fail> {
    let page = page(rt.alloc())?;
    let edges = [1_536, 1_024, 512, 0];
    for (place, x) in (0..4).zip(edges) {
        let due = Rect {
            x,
            y: 0,
            w: 0,
            h: 1_024,
        };
        assert_eq!(rt; caret(&page, TEXT, place), Some(due));
    }
    Ok(())
}
