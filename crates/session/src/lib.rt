//! A document that is open: it is laid out, shown and edited.
#![tactic(auto)]

mod boxes;
mod editing;
mod error;
mod generated;
mod history;
mod indexed;
mod keeping;
pub mod laws;
mod planting;
mod rules;
mod session;
mod shifted;
mod stored;
mod turning;

pub use error::{ApplyError, OpenError, UndoError};
pub use session::Session;
