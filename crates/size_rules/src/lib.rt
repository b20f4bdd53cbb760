//! The sizes of boxes: what they come to by the size of the containing block, within their limits and by their
//! contents, and the inline equation (CSS 2, 10.3.3, 10.3.5, 10.4 and 10.5). No call takes memory.
#![tactic(auto)]

mod definite;
mod equation;
pub mod laws;
mod limits;
mod resolving;

pub use definite::definite_block;
pub use equation::{Used, inline_equation};
pub use limits::{fit, held, used_size};
pub use resolving::{resolved, resolved_margin, resolved_or_zero};
