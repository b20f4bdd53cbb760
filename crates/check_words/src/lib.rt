//! Tests of the words of a command line and of the generated input, by their public calls alone.
#![tactic(auto)]

#[cfg(test)]
mod generated;
#[cfg(test)]
mod words;
