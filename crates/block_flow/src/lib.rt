//! The stacking of block-level children in their container: where each stands on the block axis, by the
//! margins that adjoin, and what they come to (CSS 2, 8.3.1 and 9.4.1).
#![tactic(auto)]

mod adjoining;
mod boxes;
pub mod laws;
mod reached;
mod stacked;
mod stacking;

pub use adjoining::{BlockBox, Edge};
pub use boxes::{ChildBox, ParentEdges};
pub use stacked::Stack;
pub use stacking::stack;
