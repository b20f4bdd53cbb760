//! Laws of cells, hits and carets. These functions do nothing: their contracts are the laws.

ghost use Rattle.hit_caret.specs.Laws.{CaretPointsHit, CaretsStandOnEdges, CellsTileRuns, FilledRunsAreTaken, HeldPointsAreHit, HitsAreHeld, MiddlesAreHit};

/// A hit is of a cell that holds the point; no later cell holds it.
pub fn hits_are_held()
    ensures { HitsAreHeld }
{}

/// A point that a cell holds hits that cell or a later one.
pub fn held_points_are_hit()
    ensures { HeldPointsAreHit }
{}

/// The point in the middle of a cell that isn't empty hits that cell or a later one.
pub fn middles_are_hit()
    ensures { MiddlesAreHit }
{}

/// The cells of a run tile its rectangle, where its units fill it: each of its points lies in one of them, and no other point
/// in any.
pub fn cells_tile_runs()
    ensures { CellsTileRuns }
{}

/// Where units fill their run, each of them takes its whole extent of it.
pub fn filled_runs_are_taken()
    ensures { FilledRunsAreTaken }
{}

/// A caret is an edge of a cell of its text.
pub fn carets_stand_on_edges()
    ensures { CaretsStandOnEdges }
{}

/// Where a caret has a point that no later cell holds, the hit of the point is of the caret's cell, with the caret's place.
pub fn caret_points_hit()
    ensures { CaretPointsHit }
{}
