//! A page whose fragments are shifted (CSS Positioned Layout 3, 3.4; CSS 2, 9.4.3).

ghost use Rattle.std.specs.List.{All};
ghost use Rattle.std.specs.Prelude.{◌≡◌, ℕ, ◌-◌, ◌≤◌, ◌^◌, length, ◌+ℤ◌, unsigned_abs, IfOk};
ghost use Rattle.place_map.specs.Near.{AreNearParts, HasEdges};
ghost use Rattle.place_map.specs.Placed.{Parts, before, none, parts_of, placed_of};
ghost use Rattle.rel_shift.specs.Bounds.{AreSized, HasBounds, IsWithin};
ghost use Rattle.rel_shift.specs.Laws.{ArePlacesWithin};
ghost use Rattle.rel_shift.specs.Shifting as rule;
ghost use Rattle.rel_shift.specs.Totals.{total, total_in};
ghost use Rattle.wm_modes.specs.Near.{IsNear};

use crate::insets::Shift;
use crate::kinds::copied;
use crate::totals::Totals;
use place_map::{Placed, PlacedPart, PlacedParts};
use std::alloc::{AllocError, Global};
use style_types::Position;
use wm_modes::Rect;

/// A page with each box, line, inline box and run shifted as its node is: by the node's own shift and those of the elements
/// that it stands in. Nothing else changes. The positions are those of the document that was placed. Takes memory for the
/// page, for the containing block that each box is, and for the shift of each node. No node is shifted further than 2^48 units
/// on either axis, so what is shifted lies within 2^60 units of 0 where the page lies within 2^60 - 2^48.
///
/// All rectangles of the page and their content areas lie within 2^60 units of 0; the sizes of each containing block, the
/// view among them, are from 0 to 2^32 units; lengths among the insets are within 2^32 of 0, percentages within
/// 9,999,999.99; there are no more than 65,536 positions.
pub fn shift(alloc: Global, placed: &Placed, positions: &[Position]) -> Result<Placed, AllocError>
    requires near { AreNearParts (placed_of placed.now).parts }
    requires sized { AreSized (placed_of placed.now) }
    requires bounded { All HasBounds positions.now }
    requires few { length positions.now ≤ 65536 }
    ensures page { IfOk result (λ made. placed_of made ≡ rule.shift (placed_of placed.now) positions.now) }
    ensures within { IfOk result (λ _. (node : ℕ) → IsWithin (2 ^ 48) (total (placed_of placed.now) positions.now node)) }
    ensures near { IfOk result (λ made. ArePlacesWithin (2 ^ 60 - 2 ^ 48) (placed_of placed.now).parts → AreNearParts (placed_of made).parts) }
{
    let totals = Totals::of_page(alloc, placed, positions)?;
    let root = shifted_part(alloc, &totals, &placed.root)?;
    Ok(Placed {
        view: placed.view,
        root,
    })
}

// Fragments, shifted.
#[cycle(shifted)]
fn shifted_parts(
    alloc: Global,
    totals: &Totals,
    parts: &[PlacedPart],
) -> Result<PlacedParts, AllocError>
    requires near { AreNearParts (parts_of parts.now) }
    requires within { (node : ℕ) → IsWithin (2 ^ 48) (total_in totals.now node) }
    ensures { IfOk result (λ made. parts_of made.items ≡ rule.shifted (total_in totals.now) (parts_of parts.now)) }
{
    let mut made = Vec::with_capacity(alloc, parts.len())?;
    for part in parts {
        made.push(shifted_part(alloc, totals, part)?)?;
    }
    Ok(made)
}

// A fragment, shifted with what stands inside it.
#[cycle(shifted)]
fn shifted_part(alloc: Global, totals: &Totals, part: &PlacedPart) -> Result<PlacedPart, AllocError>
    requires near { AreNearParts (before part.now none) }
    requires within { (node : ℕ) → IsWithin (2 ^ 48) (total_in totals.now node) }
    ensures { IfOk result (λ made. (next : Parts) → before made (rule.shifted (total_in totals.now) next) ≡ rule.shifted (total_in totals.now) (before part.now next)) }
{
    let children = shifted_parts(alloc, totals, part.children())?;
    let kind = copied(part.kind())?;
    let name = part.name();
    let rect = moved(part.rect(), totals.total(name.node));
    Ok(PlacedPart::new(name, rect, kind, children))
}

// A rectangle, moved.
fn moved(rect: Rect, by: Shift) -> Rect
    requires near { IsNear rect }
    requires within { IsWithin (2 ^ 48) by }
    ensures value { result ≡ rule.moved by rect }
    ensures edges { HasEdges result }
{
    Rect {
        x: further(rect.x, by.dx),
        y: further(rect.y, by.dy),
        w: rect.w,
        h: rect.h,
    }
}

// A place, so much further on.
fn further(place: i64, by: i64) -> i64
    requires near { unsigned_abs place ≤ 2 ^ 60 }
    requires within { unsigned_abs by ≤ 2 ^ 48 }
    ensures { result ≡ place +ℤ by }
{
    place + by
}
