//! The part of a page that meets a rectangle.

ghost use Rattle.std.specs.Prelude.{◌≡◌, ◌||◌, not, IfOk, IfSome, OnOk, option_map};
ghost use Rattle.page_window.specs.Rects as rects;
ghost use Rattle.page_window.specs.Windowing as rule;
ghost use Rattle.place_map.specs.Near.{AreNearParts, HasEdges};
ghost use Rattle.place_map.specs.Placed.{Parts, before, followed, none, parts_of, placed_of};

use crate::kinds::kind_copy;
use crate::rects::{meets, reaches};
use place_map::{Placed, PlacedPart, PlacedParts};
use std::alloc::{AllocError, Global};
use wm_modes::Rect;

/// The part of a page that meets a rectangle: each fragment that has a place in common with it, and each in which one does, in
/// their order and with all else of them as it is. None where nothing on the page does. An extent of 0 is taken as 1, so that
/// what takes no room is found where it stands.
///
/// The right and the bottom edge of the rectangle are numbers of 64 bits, and all rectangles of the page and their content areas
/// lie within 2^60 units of 0; so do those of its part. Takes memory for the tree; the units of runs are shared. What lies in a
/// bound that the rectangle doesn't reach is passed over.
pub fn window(alloc: Global, page: &Placed, rect: Rect) -> Result<Option<Placed>, AllocError>
    requires rect { HasEdges rect }
    requires near { AreNearParts (placed_of page.now).parts }
    ensures window { IfOk result (λ made. option_map placed_of made ≡ rule.window rect (placed_of page.now)) }
    ensures near { IfOk result (λ made. IfSome made (λ part. AreNearParts (placed_of part).parts)) }
{
    match window_part(alloc, &rect, &page.root)? {
        Some(root) => Ok(Some(Placed {
            view: page.view,
            root,
        })),
        None => Ok(None),
    }
}

// Of fragments one after the other, those that meet the rectangle or in which one does.
#[cycle(window)]
fn window_parts(alloc: Global, rect: &Rect, parts: &[PlacedPart]) -> Result<PlacedParts, AllocError>
    requires rect { HasEdges rect.now }
    requires near { AreNearParts (parts_of parts.now) }
    ensures { IfOk result (λ made. parts_of made.items ≡ rule.window_parts rect.now (parts_of parts.now)) }
{
    let mut made = Vec::new(alloc);
    for part in parts {
        let kept = window_part(alloc, rect, part)?;
        push_kept(&mut made, kept)?;
    }
    Ok(made)
}

// A fragment with what is kept inside it, or none where nothing of it is kept.
#[cycle(window)]
fn window_part(
    alloc: Global,
    rect: &Rect,
    part: &PlacedPart,
) -> Result<Option<PlacedPart>, AllocError>
    requires rect { HasEdges rect.now }
    requires near { AreNearParts (before part.now none) }
    ensures { IfOk result (λ made. (next : Parts) → rule.before_if made (rule.window_parts rect.now next) ≡ rule.window_parts rect.now (before part.now next)) }
{
    if reaches(rect, part.bound()) {
        let children = window_parts(alloc, rect, part.children())?;
        let kept = part_if_kept(rect, part, children)?;
        Ok(kept)
    } else {
        Ok(None)
    }
}

// A fragment with these inside it, where it is kept.
fn part_if_kept(
    rect: &Rect,
    part: &PlacedPart,
    children: PlacedParts,
) -> Result<Option<PlacedPart>, AllocError>
    requires rect { HasEdges rect.now }
    requires own { HasEdges part.now.rect }
    ensures { IfOk result (λ made. (next : Parts) → rule.before_if made next ≡ rule.kept (rects.meets rect.now part.now.rect) (record { name = part.now.name; rect = part.now.rect; kind = part.now.kind; inner = parts_of children.items }) next) }
{
    if is_kept(rect, &part.rect(), &children) {
        let kind = kind_copy(part.kind())?;
        let kept = PlacedPart::new(part.name(), part.rect(), kind, children);
        Ok(Some(kept))
    } else {
        Ok(None)
    }
}

// Whether a fragment is kept: it meets the rectangle, or something is kept inside it.
fn is_kept(rect: &Rect, own: &Rect, children: &[PlacedPart]) -> bool
    requires rect { HasEdges rect.now }
    requires own { HasEdges own.now }
    ensures { result ≡ (rects.meets rect.now own.now || not (rule.is_none (parts_of children.now))) }
{
    meets(rect, own) || has_any(children)
}

#[tactic(auto, using(crate::proofs::Trees::no_parts))]
fn has_any(parts: &[PlacedPart]) -> bool
    ensures { result ≡ not (rule.is_none (parts_of parts.now)) }
{
    !parts.is_empty()
}

fn push_kept(made: &mut PlacedParts, kept: Option<PlacedPart>) -> Result<(), AllocError>
    ensures { OnOk result ((next : Parts) → followed made.new.items next ≡ followed made.old.items (rule.before_if kept next)) }
{
    if let Some(part) = kept {
        made.push(part)?;
    }
    Ok(())
}
