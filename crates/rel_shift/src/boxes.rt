//! The boxes of a page that are containing blocks, by their elements (CSS Positioned Layout 3, 2.1).

ghost use Rattle.std.specs.BTreeMap.{get};
ghost use Rattle.std.specs.Option.{option_or};
ghost use Rattle.std.specs.Ordering.{nat_cmp};
ghost use Rattle.std.specs.Prelude.{◌≡◌, ℕ, IfOk};
ghost use Rattle.fragment_types.specs.Fragment.{kind_of};
ghost use Rattle.place_map.specs.Placed.{parts_of, placed_of};
ghost use Rattle.rel_shift.specs.Boxes as rule;

use crate::containing::Containing;
use fragment_types::{BoxPart, FragmentKind};
use place_map::{Placed, PlacedPart};
use std::alloc::{AllocError, Global};
use std::collections::BTreeMap;
use std::slice;
use wm_modes::WritingMode;

/// The own boxes of the elements on a page, by the elements' numbers.
pub(crate) fn boxes_by_node(
    alloc: Global,
    placed: &Placed,
) -> Result<BTreeMap<u32, Containing>, AllocError>
    ensures { IfOk result (λ boxes. (node : ℕ) → get nat_cmp boxes node ≡ rule.box_of (placed_of placed.now) node) }
{
    let mut boxes = BTreeMap::new(alloc);
    add_boxes(placed.mode(), slice::from_ref(&placed.root), &mut boxes)?;
    Ok(boxes)
}

/// The view as a containing block, in the mode and the direction of the root.
pub(crate) fn view_block(placed: &Placed) -> Containing
    ensures { result ≡ rule.view_block (placed_of placed.now) }
{
    Containing {
        mode: placed.mode(),
        dir: placed.direction(),
        inline: placed.view.inline,
        block: Some(placed.view.block),
    }
}

// Adds the boxes among fragments and inside them, whose containing block is of this mode.
fn add_boxes(
    mode: WritingMode,
    parts: &[PlacedPart],
    boxes: &mut BTreeMap<u32, Containing>,
) -> Result<(), AllocError>
    ensures { IfOk result (λ _. (node : ℕ) → get nat_cmp boxes.new node ≡ option_or (rule.box_in mode node (parts_of parts.now)) (get nat_cmp boxes.old node)) }
{
    for part in parts {
        add_box(mode, part, boxes)?;
        add_boxes(mode_inside(mode, part.kind()), part.children(), boxes)?;
    }
    Ok(())
}

// Adds a fragment where it is the own box of an element.
fn add_box(
    mode: WritingMode,
    part: &PlacedPart,
    boxes: &mut BTreeMap<u32, Containing>,
) -> Result<(), AllocError>
    ensures { IfOk result (λ _. (node : ℕ) → get nat_cmp boxes.new node ≡ option_or (rule.own_box_of node mode part.now.name part.now.kind) (get nat_cmp boxes.old node)) }
{
    if let Some(own) = own_box(mode, part) {
        boxes.insert(part.name().node, own)?;
    }
    Ok(())
}

// The own box of an element; anonymous blocks and other fragments are none.
fn own_box(mode: WritingMode, part: &PlacedPart) -> Option<Containing>
    ensures { result ≡ rule.own_box mode part.now.name part.now.kind }
{
    match part.kind() {
        FragmentKind::Box(own) if part.name().ordinal == 0 => Some(containing(mode, own)),
        FragmentKind::Box(_)
        | FragmentKind::Line { .. }
        | FragmentKind::Span
        | FragmentKind::Run { .. }
        | FragmentKind::Measure { .. } => None,
    }
}

// A box as a containing block; its own is of this mode, on whose axes its content area is told.
fn containing(mode: WritingMode, own: &BoxPart) -> Containing
    ensures { result ≡ rule.block_in mode own.now.mode own.now.dir own.now.content own.now.definite }
{
    Containing {
        mode: own.mode,
        dir: own.dir,
        inline: if mode.is_parallel(own.mode) {
            own.content.inline
        } else {
            own.content.block
        },
        block: own.definite,
    }
}

// The mode on whose axes what stands inside a fragment is told.
fn mode_inside(mode: WritingMode, kind: &FragmentKind) -> WritingMode
    ensures { result ≡ rule.mode_inside mode (kind_of kind.now) }
{
    match kind {
        FragmentKind::Box(own) => own.mode,
        FragmentKind::Line { mode: own, .. } => *own,
        FragmentKind::Span | FragmentKind::Run { .. } | FragmentKind::Measure { .. } => mode,
    }
}
