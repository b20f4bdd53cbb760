//! Box trees (docs/PROFILE/boxes.md).

use fragment_types::{BoxName, Items};
use style_types::SharedStyle;

/// What a block container holds.
#[derive(Debug, Drop)]
pub enum Content {
    /// Block-level boxes, which are the children.
    Blocks,
    /// A paragraph. Its inline-blocks' boxes are the children, in the order in which the items name them.
    Inline(Items),
}

/// A box: its name, its style and what it holds.
#[derive(Debug, Drop)]
pub struct BoxNode {
    pub name: BoxName,
    pub style: SharedStyle,
    pub content: Content,
}

/// Boxes in order.
pub type BoxTrees = Vec<BoxTree>;

/// A box with those inside it: the block-level ones, or those of the inline-blocks of its paragraph, in order.
#[derive(Debug, Drop)]
pub struct BoxTree {
    pub node: BoxNode,
    pub children: BoxTrees,
}
