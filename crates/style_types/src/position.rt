//! Which nodes of a document are shifted (CSS Positioned Layout 3, 2 and 3.1).

use crate::style::Insets;

/// A node of a document that isn't hidden.
#[derive(Clone, Copy, Debug, PartialEq, Eq)]
pub struct Position {
    /// The node's number.
    pub node: u32,
    /// Its parent's number; None for the root.
    pub parent: Option<u32>,
    /// The element whose box is the node's containing block: the nearest one above it that isn't an inline box. None for the
    /// root, whose containing block is the view.
    pub holder: Option<u32>,
    /// The insets of a relatively positioned element; None for any other node.
    pub insets: Option<Insets>,
}

/// The nodes of a document that aren't hidden, in document order: each after its parent.
pub type Positions = Vec<Position>;
