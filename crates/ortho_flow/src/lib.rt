//! The sizes of boxes whose inline axis is their containing block's block axis (CSS Writing Modes 4, 7.3).
//! All lengths are in units of 1/64 px. No call takes memory.
#![tactic(auto)]

mod orthogonal;

pub use orthogonal::{available, contribution};
