//! Places of characters in their order on a line.

/// Places in the order in which they stand on the line from left to right.
pub type Order = Vec<usize>;
