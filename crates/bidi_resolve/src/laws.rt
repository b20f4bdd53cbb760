//! Laws of the rules. These functions do nothing: their contracts are the laws.

ghost use Rattle.bidi_resolve.specs.Laws.{AreApartWhereTheyCover, LeftToRightHasLevelZero, MayComeInTurn, NoNeutralIsLeft, RaiseByTwo, RulesLookAround, StandInside, StayOutside};

/// At places outside a sequence the classes and levels stay as they were.
pub fn places_outside_stay()
    ensures { StayOutside }
{}

/// At the places of a sequence, which rise, stands what the rules give for it.
pub fn places_inside_are_resolved()
    ensures { StandInside }
{}

/// A weak or neutral rule is told for each place by what stands before it, at it and behind it.
pub fn rules_look_around()
    ensures { RulesLookAround }
{}

/// Behind N2 no neutral, isolate initiator or PDI is left.
pub fn no_neutral_is_left()
    ensures { NoNeutralIsLeft }
{}

/// I1 and I2 raise a level by two at most.
pub fn levels_rise_by_two()
    ensures { RaiseByTwo }
{}

/// Sequences that have no place in common may be resolved one after the other in the same lists: each gives what it
/// gives by itself.
pub fn sequences_may_come_in_turn()
    ensures { MayComeInTurn }
{}

/// The sequences of a paragraph have no place in common, since together they have each place that is kept once.
pub fn sequences_that_cover_are_apart()
    ensures { AreApartWhereTheyCover }
{}

/// In a paragraph of base level 0 without R, AL and AN, embeddings, overrides and isolates every level is 0.
pub fn left_to_right_has_level_zero()
    ensures { LeftToRightHasLevelZero }
{}
