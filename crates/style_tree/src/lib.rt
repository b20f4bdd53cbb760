//! The styles of a whole document: each node with its style, as a tree (CSS 2, 6.1).
#![tactic(auto)]

mod kind;
mod root;
mod styling;

pub use styling::{Styling, styled};
