//! Boxes in an arena of their own (docs/PROFILE/boxes.md).

ghost use Rattle.std.specs.Prelude.{◌≡◌, ◌≤◌, ◌^◌, ℕ, IfOk, None};
ghost use Rattle.box_gen.specs.Places as places;
ghost use Rattle.box_gen.specs.Tree.{boxes_of, count};
ghost use Rattle.box_arena.specs.At.{parent_at};
ghost use Rattle.box_arena.specs.Boxes.{Stands};
ghost use Rattle.box_arena.specs.Planting.{IsBare};
ghost use Rattle.box_arena.specs.Reusing.{AreNamedOnce};

use crate::generated::Generated;
use box_arena::laws::{arenas_are_sound, planted_boxes_are_named_once};
use box_arena::{BoxArena, BoxKey, count};
use para_prepare::Prepared;
use std::alloc::{AllocError, Global};
use style_types::Positions;

/// The boxes of a document in an arena, the one of them that is no other's child, and the positions of its nodes.
#[derive(Drop)]
pub(crate) struct Rooted {
    pub(crate) arena: BoxArena<Prepared>,
    pub(crate) root: BoxKey,
    /// None where no element is relatively positioned.
    pub(crate) positions: Option<Positions>,
    /// How many texts were set in them since they were laid out.
    pub(crate) sets: u32,
}

/// These boxes in an arena, where nothing is kept, and these positions.
pub(crate) fn grown(alloc: Global, generated: Generated) -> Result<Rooted, AllocError>
    requires few { count (boxes_of generated.tree) ≤ 2 ^ 18 }
    requires named { places.AreNamedOnce (boxes_of generated.tree) }
    ensures stands { IfOk result (λ made. Stands made.arena.slots made.root (boxes_of generated.tree)) }
    ensures positions { IfOk result (λ made. made.positions ≡ generated.positions) }
    ensures free { IfOk result (λ made. parent_at made.arena.slots made.root ≡ None) }
    ensures named { IfOk result (λ made. AreNamedOnce made.arena.slots) }
    ensures bare { IfOk result (λ made. (key : ℕ) → IsBare made.arena.slots key) }
{
    planted_boxes_are_named_once::<Prepared>();
    let mut arena = BoxArena::new(alloc);
    arena.reserve(count(&generated.tree))?;
    let root = arena.plant(generated.tree);
    arenas_are_sound(&arena);
    Ok(Rooted {
        arena,
        root,
        positions: generated.positions,
        sets: 0,
    })
}
