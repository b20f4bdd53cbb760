//! Laws of margin lists, over all whole numbers. The functions do nothing: their contracts are the laws.

ghost use Rattle.margin_collapse.specs.Laws.{AreExtremes, HaveLists};

/// The greatest positive margin of a list and its least negative one are members of it, or 0 where it has
/// none, and no member lies beyond them.
pub fn extremes_are_members()
    ensures { AreExtremes }
{}

/// Each pair of a number from 0 up and a number from 0 down stands for some list.
pub fn pairs_stand_for_lists()
    ensures { HaveLists }
{}
