//! Laws of the order of a line (UAX 9, L2). These functions do nothing: their contracts are the laws.

ghost use Rattle.bidi_order.specs.Laws.{LesserStandsForTwo, LevelZeroStays, MayBeLeftOut};

/// A place whose level is not less than that of one of its neighbours may be left out of a line: the others keep their
/// order.
pub fn a_place_may_be_left_out()
    ensures { MayBeLeftOut }
{}

/// Where two neighbours are both left out, the lesser of their levels may stand for both: the others keep their order.
pub fn the_lesser_stands_for_two()
    ensures { LesserStandsForTwo }
{}

/// Items that all have level 0 stand in their own order, whatever parts them.
pub fn level_zero_stays()
    ensures { LevelZeroStays }
{}
