//! A tree of fragments on the page (CSS Writing Modes 4, 6.4).

ghost use Rattle.std.specs.Prelude.{◌≡◌, IfOk};
ghost use Rattle.fragment_types.specs.Fragment.{Pieces, before, kind_of, piece_of, pieces_of};
ghost use Rattle.fragment_types.specs.declared.fragment.Fragment.{out-Fragment};
ghost use Rattle.place_map.specs.Frame.{of_view};
ghost use Rattle.place_map.specs.Near.{AreNear, AreNearParts};
ghost use Rattle.place_map.specs.Placed.{before as part_before, parts_of, placed_of};
ghost use Rattle.place_map.specs.Placing as rule;

use crate::frame::Frame;
use crate::placed::{Placed, PlacedPart, PlacedParts};
use fragment_types::Fragment;
use std::alloc::{AllocError, Global};
use wm_units::View;

/// Carries a tree of fragments to the page, from the view down: each box by the mode and the used direction of its containing
/// block; what stands in a line from line-left and line-over. All rectangles, of the flow and of the page, and their content
/// areas lie within 2^60 units of 0, and so do all rectangles of the page that it gives. Takes memory for the tree.
pub fn place(alloc: Global, root: &Fragment, view: View) -> Result<Placed, AllocError>
    requires near { AreNear (of_view view (kind_of (out-Fragment root.now).kind)) (piece_of root.now) }
    ensures page { IfOk result (λ made. placed_of made ≡ rule.place view (piece_of root.now)) }
    ensures near { IfOk result (λ made. AreNearParts (placed_of made).parts) }
{
    let frame = Frame::of_view(view, &root.kind);
    let root = placed_part(alloc, frame, root)?;
    Ok(Placed { view, root })
}

// Fragments that are measured from there.
#[cycle(placed)]
#[tactic(auto, using(crate::proofs::Trees::one_more))]
fn placed_parts(
    alloc: Global,
    frame: Frame,
    fragments: &[Fragment],
) -> Result<PlacedParts, AllocError>
    requires near { AreNear frame (pieces_of fragments.now) }
    ensures { IfOk result (λ made. parts_of made.items ≡ rule.placed frame (pieces_of fragments.now)) }
{
    let mut made = Vec::with_capacity(alloc, fragments.len())?;
    for fragment in fragments {
        made.push(placed_part(alloc, frame, fragment)?)?;
    }
    Ok(made)
}

// Carries a fragment that is measured in this frame to the page, with what stands inside it.
#[cycle(placed)]
#[tactic(auto, using(crate::proofs::Trees::near_part))]
fn placed_part(alloc: Global, frame: Frame, fragment: &Fragment) -> Result<PlacedPart, AllocError>
    requires near { AreNear frame (piece_of fragment.now) }
    ensures { IfOk result (λ made. (next : Pieces) → part_before made (rule.placed frame next) ≡ rule.placed frame (before fragment.now next)) }
{
    let rect = frame.on_page(fragment.rect);
    let inside = frame.inside(&fragment.kind, rect);
    let children = placed_parts(alloc, inside, &fragment.children)?;
    let shared = fragment.moved_to(fragment.rect)?;
    Ok(PlacedPart::new(shared.name, rect, shared.kind, children))
}
