//! Laws of the numbers, over all whole numbers. These functions do nothing: their contracts are the laws.

ghost use Rattle.wm_units.specs.Laws.{AreNearest, IsPercentCut, AreHeld, IsHalfCut};

/// Lengths are rounded to the nearest unit, ties away from 0.
pub fn nearest_is_near()
    ensures { AreNearest }
{}

/// Percentages are cut towards 0.
pub fn percent_is_cut()
    ensures { IsPercentCut }
{}

/// Lengths and sizes are held between their ends.
pub fn caps_hold()
    ensures { AreHeld }
{}

/// Halves are cut downwards.
pub fn half_is_cut_downwards()
    ensures { IsHalfCut }
{}
