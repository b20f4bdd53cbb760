//! How great the trees of boxes are that are gone through.

/// The greatest count of boxes that stand side by side.
pub const MOST_BOXES: u32 = 1 << 18;

/// How many boxes stand one inside the other at most.
pub const MOST_DEEP: u32 = 130;
