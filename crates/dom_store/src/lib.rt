//! The state of a document: its nodes under their numbers (docs/PROFILE/nodes.md).
#![tactic(auto)]

mod children;
mod copies;
mod copying;
mod depths;
mod document;
mod edit;
mod editing;
mod error;
mod exact;
mod exactly;
mod filling;
mod inserting;
pub mod laws;
mod moving;
mod node;
mod opening;
mod refusals;
mod removing;
mod restoring;
mod siblings;
mod standing;
mod steps;
mod taking;
mod writing;

pub use document::Document;
pub use edit::{Before, Change, Edit, NewNodes, Stood};
pub use error::EditError;
pub use exact::{ExactEdit, Numbered, NumberedNodes, Step};
pub use node::{Node, NodeKind, NodeNumbers};
