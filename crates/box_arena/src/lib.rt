//! The arena of boxes: a box tree that is edited in place, with what was laid out for each box and what was prepared of
//! its text (docs/PROFILE/boxes.md).
#![tactic(auto)]

mod arena;
mod climb;
mod entry;
mod equality;
mod free;
mod handing;
mod key;
pub mod laws;
mod limits;
mod links;
mod planting;
mod results;
mod reusing;
mod write;

pub use arena::BoxArena;
pub use fragment_types::Constraint;
pub use key::BoxKey;
pub use limits::{MOST_BOXES, MOST_DEEP};
pub use planting::count;
pub use reusing::reuse;
