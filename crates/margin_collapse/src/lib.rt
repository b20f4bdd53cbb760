//! Collapsing margins: a list of adjoining margins, kept as its greatest positive and its least negative
//! one, and the one margin to which it collapses (CSS 2, 8.3.1).
#![tactic(auto)]

mod laws;
mod margins;

pub use laws::{extremes_are_members, pairs_stand_for_lists};
pub use margins::Margins;
