//! The intrinsic sizes of a paragraph (CSS 2, 10.3.5).

ghost use Rattle.std.specs.Prelude.{◌≡◌, ◌≤◌, ◌^◌, All, IfOk, length};
ghost use Rattle.fragment_types.specs.Item.{entries_of};
ghost use Rattle.para_prepare.specs.Preparation.{AreFrom, HasBounds as prepared_bounds};
ghost use Rattle.para_lines.specs.Boxes.{HasBounds};
ghost use Rattle.para_lines.specs.Filling as rule;
ghost use Rattle.para_lines.specs.Reach.{lengths_of};

use crate::boxes::inline_boxes;
use crate::filling::FillInput;
use crate::prepared::PreparedLists;
use fragment_types::Item;
use line_fill::{Intrinsic, intrinsic};
use para_prepare::Prepared;
use std::alloc::{AllocError, Global};

/// The min-content and the max-content size of a paragraph of these items, prepared so, whose atoms in order have these
/// min-content and max-content contributions (CSS 2, 10.3.5). Lengths are in units of 1/64 px. No percentage counts. The work
/// grows with the items.
#[tactic(auto, using(crate::proofs::PreparedLaws::prepared_near, crate::proofs::PreparedLaws::sources_there))]
pub fn paragraph_sizes(
    alloc: Global,
    items: &[Item],
    prepared: &Prepared,
    mins: &[i64],
    maxs: &[i64],
) -> Result<Intrinsic, AllocError>
    requires count { length items.now ≤ 2 ^ 20 }
    requires bounds { All HasBounds (entries_of items.now) }
    requires few { length prepared.now.items ≤ 2 ^ 21 }
    requires sources { AreFrom 0 (length items.now) prepared.now.items }
    requires lengths { All (λ item. prepared_bounds item.what) prepared.now.items }
    requires mins { lengths_of mins.now ≤ 2 ^ 59 }
    requires maxs { lengths_of maxs.now ≤ 2 ^ 59 }
    ensures { IfOk result (λ sizes. sizes ≡ rule.paragraph_sizes (entries_of items.now) prepared.now mins.now maxs.now) }
{
    let boxes = inline_boxes(alloc, items)?;
    let input = FillInput {
        boxes: &boxes,
        lists: PreparedLists::of(prepared),
        inline: None,
    };
    let narrow = input.items(alloc, mins)?;
    let wide = input.items(alloc, maxs)?;
    Ok(Intrinsic {
        min: intrinsic(&narrow).min,
        max: intrinsic(&wide).max,
    })
}
