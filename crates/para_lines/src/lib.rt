//! The lines of a paragraph: prepared text, filled and placed (CSS 2, 9.4.2 and 10.8).
#![tactic(auto)]

mod alone;
mod boxes;
mod edges;
mod filled;
mod filling;
mod line;
mod lines;
mod paragraph;
mod prepared;
mod seated;
mod seated_items;
mod setting;
mod sizes;
mod standing;
mod text;

pub use lines::paragraph_lines;
pub use paragraph::{Atom, Container};
pub use sizes::paragraph_sizes;
