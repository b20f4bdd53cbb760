//! Tests of what scripts write over documents, by public calls alone.
#![tactic(auto)]

#[cfg(test)]
mod jobs;
