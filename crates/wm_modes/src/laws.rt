//! Laws of the sides and the maps. These functions do nothing: their contracts are the laws.

ghost use Rattle.wm_modes.specs.Laws.{AddUp, AreInverse, StandsBySides};

/// Each map undoes the other, in every mode and direction.
pub fn maps_are_inverse()
    ensures { AreInverse }
{}

/// A rectangle stands as far from the area's inline-start and block-start sides as its flow place says.
pub fn rectangles_stand_by_sides()
    ensures { StandsBySides }
{}

/// In a containing block that is mapped by the same mode and direction, a rectangle stands where their
/// places add up to.
pub fn places_add_up()
    ensures { AddUp }
{}
