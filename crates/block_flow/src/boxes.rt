//! What a container and its children bring to a stack (CSS 2, 8.3.1).

use margin_collapse::Margins;

/// Which edges of a container adjoin those of its children. An edge adjoins where the container isn't a
/// flow root and has no border and no padding there; at its end it also needs an auto block size and the
/// minimum 0 (CSS 2, 8.3.1).
#[derive(Clone, Copy, Debug, PartialEq, Eq)]
pub struct ParentEdges {
    pub start_joins: bool,
    pub end_joins: bool,
}

/// A block-level child as its container stacks it, in units of 1/64 px on the container's block axis.
#[derive(Clone, Copy, Debug, PartialEq, Eq)]
pub struct ChildBox {
    /// The size of its border box.
    pub size: i64,
    /// The margins that adjoin its start, its own among them.
    pub start: Margins,
    /// The margins that adjoin its end, its own among them.
    pub end: Margins,
    /// Whether its start and its end adjoin, so that it is collapsed through.
    pub through: bool,
}
