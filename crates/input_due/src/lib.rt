//! What is due for an input: the steps of a script over its document, the answers over its page, its flow with the page in each mode, or
//! its refusal (docs/PROFILE/commands.md).
#![tactic(auto)]

mod document;
mod due;
mod error;
mod follows;
mod input;
pub mod laws;
mod lines;

pub use document::due_of_document;
pub use due::{Cause, Due};
pub use error::InputError;
pub use follows::Follows;
pub use input::due_of_input;
