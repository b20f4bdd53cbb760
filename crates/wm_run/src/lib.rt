//! The engine's one call, `run`: from the words of a command and the bytes of a source to the bytes of a
//! sink and a status.
#![tactic(auto)]

mod generated;
mod job;
pub mod laws;
mod status;
mod tell;

pub use command_line::Words;
pub use job::run;
pub use status::Status;
