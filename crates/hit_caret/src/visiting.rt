//! The way over the cells of a page, in the order of its listing.

ghost use Rattle.std.specs.Prelude.{◌≡◌, fold, pos};
ghost use Rattle.fragment_types.specs.Fragment.{kind_of};
ghost use Rattle.hit_caret.specs.Cells as spec;
ghost use Rattle.hit_caret.specs.Near.{IsNearCell};
ghost use Rattle.place_map.specs.Near.{AreNearParts};
ghost use Rattle.place_map.specs.Placed.{parts_of, placed_of};
ghost use Rattle.wm_modes.specs.Near.{IsNear};

use crate::cells::{Cell, Run};
use fragment_types::{FragmentKind, RunUnit, UnitKind};
use place_map::{Bound, Placed, PlacedPart};
use std::slice;
use wm_modes::WritingMode;

/// What looks at cells one after the other.
pub trait CellVisitor {
    ghost use Rattle.std.specs.Prelude.{false};
    ghost use Rattle.hit_caret.specs.declared.cells.Cell.{Cell};
    ghost use Rattle.hit_caret.specs.Visiting.{IgnoresAll};

    /// What it is after it has seen a cell.
    ghost seen: { Self → Cell → Self };

    /// Whether it is to see the cells of fragments that lie in this bound. Where it isn't, none of them would change it. A visitor
    /// that doesn't say sees all.
    fn looks_into(&self, bound: &Bound) -> bool
        ensures { result ≡ false → IgnoresAll seen self.now bound.now }
    {
        true
    }

    /// Sees a cell. No coordinate of it is further than 2^62 from 0.
    fn see(&mut self, cell: Cell)
        requires near { IsNearCell cell.rect }
        ensures { self.new ≡ seen self.old cell };
}

/// Shows the cells of a page to a visitor, in the order of the listing, but those of fragments that it doesn't look into: so it
/// is what it would be, if it had seen all. All coordinates of the page lie within 2^60 units of 0. Takes no memory.
pub fn visit_cells<V: CellVisitor>(placed: &Placed, visitor: &mut V)
    requires near { AreNearParts (placed_of placed.now).parts }
    ensures { visitor.new ≡ fold V.seen visitor.old (spec.cells (placed_of placed.now)) }
{
    visit_parts(placed.mode(), slice::from_ref(&placed.root), visitor);
}

// The cells of fragments one after the other, each before those inside it, in text of this mode.
fn visit_parts<V: CellVisitor>(mode: WritingMode, parts: &[PlacedPart], visitor: &mut V)
    requires near { AreNearParts (parts_of parts.now) }
    ensures { visitor.new ≡ fold V.seen visitor.old (spec.cells_in mode (parts_of parts.now)) }
{
    for part in parts {
        if visitor.looks_into(part.bound()) {
            visit_part(mode, part, visitor);
            visit_parts(mode_inside(mode, part.kind()), part.children(), visitor);
        }
    }
}

// The cells of a fragment itself.
fn visit_part<V: CellVisitor>(mode: WritingMode, part: &PlacedPart, visitor: &mut V)
    requires rect { IsNear part.now.rect }
    ensures { visitor.new ≡ fold V.seen visitor.old (spec.own_cells mode part.now.name.node part.now.rect part.now.kind) }
{
    match part.kind() {
        FragmentKind::Run {
            form,
            level,
            units,
            ..
        } => {
            let run = Run {
                node: part.name().node,
                level: *level,
                mode,
                rect: part.rect(),
            };
            visit_run(*form, &run, units, visitor);
        }
        FragmentKind::Box(_)
        | FragmentKind::Line { .. }
        | FragmentKind::Span
        | FragmentKind::Measure { .. } => {}
    }
}

// The cells of a run: one for each unit, but a single one of a combined run.
fn visit_run<V: CellVisitor>(form: UnitKind, run: &Run, units: &[RunUnit], visitor: &mut V)
    requires rect { IsNear run.now.rect }
    ensures { visitor.new ≡ fold V.seen visitor.old (spec.run_cells form run.now units.now) }
{
    match form {
        UnitKind::Along | UnitKind::Turned | UnitKind::Upright => visit_units(run, units, visitor),
        UnitKind::Combined => visitor.see(run.combined_cell(units)),
    }
}

// The cells of units one after the other.
fn visit_units<V: CellVisitor>(run: &Run, units: &[RunUnit], visitor: &mut V)
    requires rect { IsNear run.now.rect }
    ensures { visitor.new ≡ fold V.seen visitor.old (spec.cells_from run.now (pos 0) units.now) }
{
    let mut distance = 0;
    for unit in units {
        let taken = run.taken(distance, unit.extent());
        visitor.see(run.cell_of(distance, taken, unit));
        distance += taken;
    }
}

// The mode of the text in a fragment of this kind.
fn mode_inside(mode: WritingMode, kind: &FragmentKind) -> WritingMode
    ensures { result ≡ spec.mode_inside mode (kind_of kind.now) }
{
    match kind {
        FragmentKind::Box(part) => part.mode,
        FragmentKind::Line { mode: own, .. } => *own,
        FragmentKind::Span | FragmentKind::Run { .. } | FragmentKind::Measure { .. } => mode,
    }
}
