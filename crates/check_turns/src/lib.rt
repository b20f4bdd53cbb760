//! Tests of turns: that memory is found for a turned page.
#![tactic(auto)]

#[cfg(test)]
mod pages;
