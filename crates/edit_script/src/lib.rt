//! Scripts of edits, line by line (docs/PROFILE/scripts.md).
#![tactic(auto)]

mod command;
mod error;
pub mod laws;
mod meaning;
mod script;
mod step;

pub use error::{Refusal, ScriptError};
pub use script::read_script;
pub use step::{Script, ScriptLine, ScriptStep};
