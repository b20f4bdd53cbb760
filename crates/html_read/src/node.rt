//! What is read: nodes in document order, and style sheets.

use html_tokens::Tag;
use letters::{LetterList, Letters, SharedText};
use wm_modes::Direction;

/// A text, and the place in bytes at which it was found.
#[derive(Debug, Drop)]
pub struct PlacedText {
    pub text: Letters,
    pub place: usize,
}

/// What the attributes of a tag say (docs/PROFILE/html.md).
#[derive(Debug, Drop)]
pub struct Attributes {
    pub id: Option<Letters>,
    pub classes: LetterList,
    pub dir: Option<Direction>,
    /// The declarations of the `style` attribute, with the place of the attribute's name.
    pub style: Option<PlacedText>,
}

/// An element, a `br` among them, or a text.
#[derive(Debug, Drop)]
pub enum ReadKind {
    Element { tag: Tag, attributes: Attributes },
    Text { text: SharedText },
}

/// A node. Its parent is a place in the same list; `None` where it stands in nothing that was read.
#[derive(Debug, Drop)]
pub struct ReadNode {
    pub parent: Option<usize>,
    pub kind: ReadKind,
}

/// Nodes in document order.
pub type ReadNodes = Vec<ReadNode>;

/// The texts of style sheets in document order, each with the place at which it begins.
pub type Sheets = Vec<PlacedText>;

/// A document: its nodes, `html` first and `body` second, its style sheets, and the place behind `</html>`.
#[derive(Debug, Drop)]
pub struct ReadDocument {
    pub nodes: ReadNodes,
    pub sheets: Sheets,
    pub end: usize,
}
