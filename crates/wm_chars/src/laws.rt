//! Laws of the tables. These functions do nothing: their contracts are the laws.

ghost use Rattle.wm_chars.specs.Laws.{Ascend, StandInOneRow, AreNoneOutside, AreUprightFromU3000, MirrorsArePartners, BracketsArePartners, BreakAsTheyOpen, AreNeutral};

/// The rows stand in the order of their characters, and none overlaps another.
pub fn rows_ascend()
    ensures { Ascend }
{}

/// A character stands in at most one row: whichever has it is the one that is found.
pub fn characters_stand_in_one_row()
    ensures { StandInOneRow }
{}

/// Bidi class, orientation and break class are None for the same characters: those that lie outside every row.
pub fn nothing_is_told_outside()
    ensures { AreNoneOutside }
{}

/// A character of the repertoire is upright exactly from U+3000 on.
pub fn upright_from_u_3000()
    ensures { AreUprightFromU3000 }
{}

/// A character is the mirror of its mirror, and none is its own.
pub fn mirrors_are_partners()
    ensures { MirrorsArePartners }
{}

/// A bracket is the partner of its partner, which closes where it opens, and is its mirror.
pub fn brackets_are_partners()
    ensures { BracketsArePartners }
{}

/// A bracket that opens is of the break class Open, one that closes of the class Close.
pub fn brackets_break_as_they_open()
    ensures { BreakAsTheyOpen }
{}

/// What has a mirror, and so each bracket, is in the repertoire with the class ON.
pub fn pairs_are_neutral()
    ensures { AreNeutral }
{}
