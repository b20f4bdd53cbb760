//! Tests that need code and not data: calls that take memory, or are generic, once each with memory enough, of crates that
//! are proved without them.
#![tactic(auto)]

#[cfg(test)]
mod arena;
#[cfg(test)]
mod counters;
#[cfg(test)]
mod faces;
#[cfg(test)]
mod rules;
#[cfg(test)]
mod texts;
