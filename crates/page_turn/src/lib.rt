//! One flow, four pages: a page of the flow turned to another writing mode (CSS Writing Modes 4, 6.2 and 6.4).
#![tactic(auto)]

mod kinds;
pub mod laws;
mod rects;
mod turning;

pub use turning::turn;
