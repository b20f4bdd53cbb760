//! The reader of documents (docs/PROFILE/html.md).
#![tactic(auto)]

mod content;
mod document;
mod error;
mod head;
mod judging;
pub mod laws;
mod node;
mod places;
mod tags;
mod tail;

pub use document::{read_document, read_fragment};
pub use error::HtmlError;
pub use html_tokens::{ATTRIBUTES, ENTITIES, RawEnd, Refusal, Role, TAGS, Tag};
pub use node::{Attributes, PlacedText, ReadDocument, ReadKind, ReadNode, ReadNodes, Sheets};
pub use places::node_places;
pub use tail::read_tail;
