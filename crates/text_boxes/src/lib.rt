//! A text that gets other letters, set in the boxes that stand (docs/PROFILE/edits.md).
#![tactic(auto)]

mod finding;
mod items;
pub mod laws;
mod setting;

pub use setting::set_text;
