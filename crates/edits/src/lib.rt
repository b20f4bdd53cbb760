//! Edits of an open document: of its tree (DOM, 4.2), of the author's rules (CSSOM, 6.4, narrowed) and of its faces.
#![tactic(auto)]

mod edit;
mod exact;

pub use dom_store::Edit as TreeEdit;
pub use edit::Edit;
pub use exact::{ExactEdit, Step};
