//! The listing of a page, and of a page of the flow: its exact text, written to a sink.
#![tactic(auto)]

mod lines;
mod listing;
mod runs;
mod text_standing;
mod words;

pub use listing::{write_flow, write_listing};
