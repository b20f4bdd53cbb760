//! Exact edits: steps of a history down and up again, in which each node has the number that it had (DOM, 4.2.3, narrowed).

use crate::node::{NodeKind, NodeNumbers};
use css_types::Declarations;
use letters::{LetterList, SharedText};

/// An edit of the tree in which nodes that come have their numbers already.
#[derive(Debug, Drop)]
pub enum ExactEdit {
    /// As in `Edit`.
    Text {
        node: u32,
        text: SharedText,
    },
    /// As in `Edit`.
    Style {
        node: u32,
        declarations: Declarations,
    },
    /// As in `Edit`.
    Class {
        node: u32,
        words: LetterList,
    },
    /// As in `Edit`.
    Move {
        node: u32,
        parent: u32,
        index: u32,
    },
    /// These children of `parent` go, each with all below it.
    Take {
        parent: u32,
        nodes: NodeNumbers,
    },
    /// Nodes that went stand again: those with this parent among its children, the first of them at this index. Parents
    /// come before their children, siblings in their order.
    Restore {
        parent: u32,
        index: u32,
        nodes: NumberedNodes,
    },
}

/// A node with its number. Its children are those that have it as their parent.
#[derive(Debug, Drop)]
pub struct Numbered {
    pub number: u32,
    pub parent: u32,
    pub kind: NodeKind,
}

/// Nodes with their numbers.
pub type NumberedNodes = Vec<Numbered>;

/// What leads back from the state after an edit to the one before it, and what leads there again.
#[derive(Debug, Drop)]
pub struct Step {
    pub back: ExactEdit,
    pub again: ExactEdit,
}
