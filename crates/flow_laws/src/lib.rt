//! Laws of flow layout (CSS 2, 8.3.1, 9.4 and 10; CSS Writing Modes 4, 7; CSS Positioned Layout 3, 2), over its definition in `relayout`: what
//! each box comes to hangs on its constraint and on no inset, what a box does with the boxes in it, where they stand. These functions do
//! nothing: their contracts are the laws.
#![tactic(auto)]

pub mod constraint;
pub mod faces;
pub mod margins;
pub mod placing;
pub mod position;
pub mod standing;
