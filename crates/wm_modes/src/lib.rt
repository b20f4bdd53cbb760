//! The five writing modes: which side of the page each side of a flow is, and the map between a flow and
//! the page with its inverse (CSS Writing Modes 4, 3.2 and 6).
#![tactic(auto)]

pub mod laws;
mod map;
mod mode;
mod rects;
mod sides;
mod words;

pub use map::{to_flow, to_physical};
pub use mode::{Direction, WritingMode};
pub use rects::{FlowRect, Rect};
pub use sides::{FlowSide, Side, side_of, used_direction};
