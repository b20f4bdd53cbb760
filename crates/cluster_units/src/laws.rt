//! Laws of units. The function does nothing: its contract is the law.

ghost use Rattle.cluster_units.specs.Laws.{AreApart, AreOfCharacters, StandInOrder};

/// The units of a text stand one behind the other in it, and none is longer than its characters can be.
pub fn units_stand_in_order()
    ensures { StandInOrder }
{}

/// The units of a text of plain characters of which none joins a run are those of its characters, and none of them is a
/// combined run.
pub fn plain_units_are_of_characters()
    ensures units { AreOfCharacters }
    ensures apart { AreApart }
{}
