//! One flow, four pages (CSS Writing Modes 4, 6.2 and 6.4): a document that no declaration ties to one mode has in vertical-rl, sideways-rl
//! and sideways-lr the page that it has in horizontal-tb, turned. These functions do nothing: their contracts are the laws.
#![tactic(auto)]

pub mod laws;
