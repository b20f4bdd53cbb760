//! Defaulting (CSS Cascading 4, 7): the specified value of a property, the computed values that say how a box turns, and
//! the law that the initial style is what the table of properties says.
#![tactic(auto)]

mod defaulting;
pub mod laws;

pub use defaulting::{computed_direction, computed_mode, computed_orientation, specified};
