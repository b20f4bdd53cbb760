//! What the programs have in common that report of a document: their input and its limit, and the line of a refusal.
#![tactic(auto)]

mod refusal;
mod report;

pub use refusal::write_refused;
pub use report::{Report, run, write_report};
