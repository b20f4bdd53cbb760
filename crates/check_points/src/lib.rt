//! Tests of probes and of cells: that memory is found for what probes ask, and that a caret goes through a text by arrow keys.
#![tactic(auto)]

pub mod arrows;
#[cfg(test)]
mod keys;
#[cfg(test)]
mod probes;
