//! The command line: what the words of a command ask for (docs/PROFILE/commands.md).
#![tactic(auto)]

mod error;
mod job;
pub mod laws;
mod line;
mod read;
mod values;
mod words;

pub use error::WordsError;
pub use job::{Command, Job};
pub use read::read_words;
pub use words::Words;
