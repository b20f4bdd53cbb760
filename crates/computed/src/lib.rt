//! Computed styles: from a parent's style and the values that won for an element to its own (CSS 2, 6.1.2).
#![tactic(auto)]

pub mod laws;
mod lengths;
mod sides;
mod step;
mod values;
mod winners;

pub use step::compute;
