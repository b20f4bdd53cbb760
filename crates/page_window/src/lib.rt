//! Of a page, what stands on a screen: the part of its tree of fragments that meets a rectangle.
#![tactic(auto)]

mod kinds;
pub mod laws;
mod rects;
mod windowing;

pub use windowing::window;
