//! Relative positions (CSS Positioned Layout 3, 3.1 to 3.4, narrowed; CSS 2, 9.4.3): how far its insets shift an element, and a
//! page whose fragments are shifted so.
#![tactic(auto)]

mod boxes;
mod containing;
mod insets;
mod kinds;
pub mod laws;
mod own;
mod positioned;
mod shifting;
mod totals;

pub use insets::Shift;
pub use own::own_shift;
pub use positioned::{has_relative, positions};
pub use shifting::shift;
