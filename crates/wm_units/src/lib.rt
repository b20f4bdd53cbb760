//! The numbers of layout: lengths in units of 1/64 px, their roundings and caps (CSS 2, 4.3.2 and
//! 4.3.3), the view, and a counter of steps that contracts see as a number.
#![tactic(auto)]

pub mod laws;
mod numbers;
mod steps;
mod view;

pub use numbers::{cap, cap_size, fixed, half, percent, scaled};
pub use steps::Steps;
pub use view::View;
