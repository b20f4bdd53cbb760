//! Nodes with their computed styles, as a tree.

use crate::lists::StyledNodes;
use crate::shared_style::SharedStyle;
use letters::SharedText;

/// What a node of a styled tree is.
#[derive(Debug, Drop)]
pub enum StyledKind {
    Element,
    /// A `br`.
    Break,
    Text { text: SharedText },
}

/// A node with its computed style, and those below it in document order.
#[derive(Debug, Drop)]
pub struct StyledNode {
    pub node: u32,
    pub kind: StyledKind,
    pub style: SharedStyle,
    pub children: StyledNodes,
}
