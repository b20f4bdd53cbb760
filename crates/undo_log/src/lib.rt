//! The log of an editor's steps, of which the last 64 can be taken back, one by one, and taken again (docs/PROFILE/edits.md).
#![tactic(auto)]

pub mod laws;
mod log;

pub use log::UndoLog;
