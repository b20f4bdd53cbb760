//! Laws of arenas. These functions do nothing: their contracts are the laws.

ghost use Rattle.box_arena.specs.At.{IsSound};
ghost use Rattle.box_arena.specs.Laws.{PlantedAreNamedOnce, SurviveAttach, SurviveDetach, SurviveRestyle};

use crate::arena::BoxArena;

/// Where a box isn't the one that is put anew and not above it, the same tree stands after as before, and the same is kept.
pub fn what_is_kept_survives_a_restyle<T>()
    ensures { SurviveRestyle T }
{}

/// Where a box isn't the parent of one that is attached and not above it, the same tree stands after as before, and the same
/// is kept.
pub fn what_is_kept_survives_an_attach<T>()
    ensures { SurviveAttach T }
{}

/// Where a box isn't the parent of one that is detached and not above it, the same tree stands after as before, and the same
/// is kept.
pub fn what_is_kept_survives_a_detach<T>()
    ensures { SurviveDetach T }
{}

/// A tree whose boxes have each a name of their own is planted in an arena without boxes: then no two boxes there have one name.
pub fn planted_boxes_are_named_once<T>()
    ensures { PlantedAreNamedOnce T }
{}

/// The boxes of an arena are linked as parents, children and siblings are, and no climb goes on.
pub fn arenas_are_sound<T>(arena: &BoxArena<T>)
    ensures { IsSound arena.now.slots }
{
    let _ = &arena.boxes;
}
