//! Edits of the tree (DOM, 4.2 and 4.5, narrowed).

use crate::node::{NodeKind, NodeNumbers};
use css_types::{Declarations, Styles};
use html_read::ReadNodes;
use letters::{LetterList, SharedText};

/// An edit of the tree. Nodes are named by their numbers, indices of children begin at 0.
#[derive(Debug, Drop)]
pub enum Edit {
    /// The whole text of a text node.
    Text {
        node: u32,
        text: SharedText,
    },
    /// An element's own declarations.
    Style {
        node: u32,
        declarations: Declarations,
    },
    /// An element's class words.
    Class {
        node: u32,
        words: LetterList,
    },
    /// Nodes become children of `parent`, the first of them at this index; they take new numbers in order.
    Insert {
        parent: u32,
        index: u32,
        nodes: NewNodes,
    },
    /// A node goes, with all below it.
    Remove {
        node: u32,
    },
    /// A node becomes the child of `parent` at this index, counted without the node itself.
    Move {
        node: u32,
        parent: u32,
        index: u32,
    },
}

/// Nodes that were read from element content, and each one's own declarations.
#[derive(Debug, Drop)]
pub struct NewNodes {
    pub read: ReadNodes,
    pub styles: Styles,
}

/// What an edit concerned: elements whose children or whose own styles are other than before, each once; and what stood
/// before.
#[derive(Debug, Drop)]
pub struct Change {
    pub elements: NodeNumbers,
    pub before: Before,
}

/// What stood before an edit, so that it can be taken back.
#[derive(Debug, Drop)]
pub enum Before {
    /// What a node was.
    Text {
        node: u32,
        kind: NodeKind,
    },
    Style {
        node: u32,
        declarations: Declarations,
    },
    Class {
        node: u32,
        words: LetterList,
    },
    /// Where the parent's new children begin, how many they are, and the number that was given next.
    Insert {
        parent: u32,
        index: u32,
        count: usize,
        next: u32,
    },
    /// The parent of the node, where it had one, and that one's children, where it isn't the new one; then at which index
    /// of the new one it came, and where it stood there before.
    Move {
        node: u32,
        from: Option<u32>,
        left: NodeNumbers,
        parent: u32,
        index: u32,
        stood: Stood,
    },
    /// Nodes that went, and what an exact edit did to the tree, are not kept.
    NotKept,
}

/// Where a node stood among the children of the parent into which it was moved.
#[derive(Debug, Drop)]
pub enum Stood {
    Nowhere,
    /// At this place alone.
    At(usize),
    /// More than once: these were the children.
    Among(NodeNumbers),
}
