//! Fragments on the page: each box by the mode and the used direction of its containing block (CSS Writing Modes 4, 6.4).
#![tactic(auto)]

mod bound;
mod frame;
mod placed;
mod placing;

pub use bound::Bound;
pub use placed::{Placed, PlacedPart, PlacedParts};
pub use placing::place;
