//! Which documents can be set in any of four modes (CSS Logical Properties 1, 4; CSS Writing Modes 4, 3.2, 5.1 and 9.1), and laws of their
//! styles: where no declaration ties them to one mode, they have in vertical-rl, sideways-rl and sideways-lr the styles that they have in
//! horizontal-tb.
#![tactic(auto)]

pub mod laws;
mod tying;

pub use tying::{first_tying, ties};
