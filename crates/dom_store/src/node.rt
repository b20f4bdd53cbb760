//! Nodes (DOM, 4.4 and 4.9, narrowed).

use css_types::Declarations;
use html_tokens::Tag;
use letters::{LetterList, Letters, SharedText};
use wm_modes::Direction;

/// The numbers of nodes, in order.
pub type NodeNumbers = Vec<u32>;

/// What a node is: an element, a `br` among them, with its own declarations, or a text.
#[derive(Debug, Drop)]
pub enum NodeKind {
    Element {
        tag: Tag,
        id: Option<Letters>,
        classes: LetterList,
        /// What the `dir` attribute says.
        dir: Option<Direction>,
        /// The declarations of the `style` attribute.
        declarations: Declarations,
    },
    Text {
        text: SharedText,
    },
}

/// A node: its parent, which only `html` is without, its children in order, and what it is.
#[derive(Debug, Drop)]
pub struct Node {
    pub parent: Option<u32>,
    pub children: NodeNumbers,
    pub kind: NodeKind,
}
