//! Flow layout (CSS 2, 9.4 and 10): the parts of which it is made.
#![tactic(auto)]

mod atoms;
mod boxed;
mod content;
mod edges;
mod flow_box;
mod flowed;
mod flowing;
mod inline;
mod inside;
mod intrinsic;
pub mod laws;
mod row;
mod sizes;
mod sizing;
mod step;
mod styled;
mod whole;

pub use whole::relayout;
