//! A page of the flow, turned to another writing mode (CSS Writing Modes 4, 6.2 and 6.4).

ghost use Rattle.std.specs.Prelude.{◌≡◌, IfOk};
ghost use Rattle.page_turn.specs.Rects.{IsTurning};
ghost use Rattle.page_turn.specs.Turning as rule;
ghost use Rattle.place_map.specs.Near.{AreNearParts};
ghost use Rattle.place_map.specs.Placed.{Parts, before, none, parts_of, placed_of};
ghost use Rattle.wm_units.specs.View.{IsView};

use crate::kinds::kind_in;
use crate::rects::Turn;
use place_map::{Placed, PlacedPart, PlacedParts};
use std::alloc::{AllocError, Global};
use wm_modes::WritingMode;

/// A page of the flow, which was placed in horizontal-tb, turned to another mode: each rectangle stands as far from line-left and
/// from block-start of the view, boxes and lines are of the mode, and runs stand as sideways text does in its lines. Takes
/// memory for the tree; the units of runs are shared.
///
/// The mode is any but vertical-lr, over whose lines isn't where its blocks begin. The sizes of the view are from 0 to 2^32
/// units, and all rectangles of the page and their content areas lie within 2^60 units of 0.
pub fn turn(alloc: Global, flow: &Placed, mode: WritingMode) -> Result<Placed, AllocError>
    requires mode { IsTurning mode }
    requires view { IsView flow.now.view }
    requires near { AreNearParts (placed_of flow.now).parts }
    ensures page { IfOk result (λ made. placed_of made ≡ rule.turned mode (placed_of flow.now)) }
{
    let view = flow.view;
    let turn = Turn { mode, view };
    let root = turned_part(alloc, turn, &flow.root)?;
    Ok(Placed { view, root })
}

// Fragments of the flow's page, turned.
#[cycle(turned)]
fn turned_parts(alloc: Global, turn: Turn, parts: &[PlacedPart]) -> Result<PlacedParts, AllocError>
    requires near { AreNearParts (parts_of parts.now) }
    ensures { IfOk result (λ made. parts_of made.items ≡ rule.turned_parts turn.mode turn.view (parts_of parts.now)) }
{
    let mut made = Vec::with_capacity(alloc, parts.len())?;
    for part in parts {
        made.push(turned_part(alloc, turn, part)?)?;
    }
    Ok(made)
}

// A fragment of the flow's page, turned with what stands inside it.
#[cycle(turned)]
fn turned_part(alloc: Global, turn: Turn, part: &PlacedPart) -> Result<PlacedPart, AllocError>
    requires near { AreNearParts (before part.now none) }
    ensures { IfOk result (λ made. (next : Parts) → before made (rule.turned_parts turn.mode turn.view next) ≡ rule.turned_parts turn.mode turn.view (before part.now next)) }
{
    let children = turned_parts(alloc, turn, part.children())?;
    let kind = kind_in(alloc, turn.mode, part.kind())?;
    let rect = turn.rect(part.rect());
    Ok(PlacedPart::new(part.name(), rect, kind, children))
}
