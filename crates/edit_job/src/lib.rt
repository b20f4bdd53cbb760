//! The steps of a script over a document that is open: each page is listed, each edit done or its refusal told
//! (docs/PROFILE/commands.md).
#![tactic(auto)]

pub mod laws;
mod refusal;
mod steps;

pub use refusal::refusal_line;
pub use steps::tell_steps;
