//! The answers to the lines of a probe over a page (docs/PROFILE/points.md).
#![tactic(auto)]

mod answers;
mod lines;

pub use answers::tell_answers;
