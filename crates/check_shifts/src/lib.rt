//! Tests of shifts: that memory is found for a shifted page.
#![tactic(auto)]

#[cfg(test)]
mod pages;
#[cfg(test)]
mod positions;
