//! Laws of turned pages. These functions do nothing: their contracts are the laws.

ghost use Rattle.page_turn.specs.Laws.{AreInverse, ArePlaced, DistancesStay, OverlapsStay, PointsStay, StandByTable};

/// The page of a tree of fragments in a mode is that of horizontal-tb, turned to the mode.
pub fn turned_pages_are_placed()
    ensures { ArePlaced }
{}

/// In each mode rectangles are turned by a row of a table.
pub fn rectangles_stand_by_the_table()
    ensures { StandByTable }
{}

/// A rectangle turned and turned back is itself, and the other way round.
pub fn turned_back()
    ensures { AreInverse }
{}

/// Rectangles overlap on the turned page exactly where they do on the flow's.
pub fn overlaps_stay()
    ensures { OverlapsStay }
{}

/// Edges of rectangles are as far from one another, along the line and across.
pub fn distances_stay()
    ensures { DistancesStay }
{}

/// A turned rectangle holds the points that the rectangle holds, turned, and no others.
pub fn points_stay()
    ensures { PointsStay }
{}
