//! Where the lines of a paragraph end, and how narrow and how wide its content can be (CSS Text 3, 4.1 and 5.1; CSS 2,
//! 10.3.5).
#![tactic(auto)]

mod ahead;
mod filling;
mod forward;
mod item;
pub mod laws;
mod sizes;
mod source;
mod sums;
mod widest;

pub use filling::{Lines, fill, fill_from};
pub use item::{FillItem, Intrinsic};
pub use sizes::intrinsic;
pub use source::FillSource;
pub use sums::Sums;
