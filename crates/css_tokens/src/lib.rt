//! The tokens of style sheets, and what may stand between them (CSS Syntax 3, 4).
#![tactic(auto)]

mod cuts;
mod gaps;
pub mod laws;
mod names;
mod numbers;
mod strings;
mod token;
mod tokens;

pub use gaps::{comment, gap};
pub use names::{hash, hash_ahead, name, name_ahead};
pub use numbers::{number, number_ahead};
pub use token::Token;
pub use tokens::next_token;
