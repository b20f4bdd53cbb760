//! Readers of byte texts, built from a few combinators whose laws are proved once.
#![tactic(auto)]

mod cuts;
mod decimals;
mod endings;
pub mod laws;
mod stop;
mod table;
mod texts;
mod white_space;

pub use cuts::front_of;
pub use decimals::decimal;
pub use endings::{Ending, up_to_end};
pub use stop::{Kind, Stop};
pub use table::{named, one_word, same_name};
pub use texts::{digit, first, starts, strip, strip_either_case};
pub use white_space::{spaces, white, white_ahead};
