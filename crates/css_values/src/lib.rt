//! Declarations of style sheets and style attributes.
#![tactic(auto)]

mod begun;
mod border;
mod by_length;
mod declarations;
mod error;
mod family;
mod judging;
pub mod laws;
mod longhand;
mod names;
mod refused;
mod reports;
mod shorthand;
mod value;
mod within;
mod words;

pub use declarations::{declarations_within, list_ends, read_declarations, told};
pub use error::{CssError, Refusal, Stop};
pub use reports::{Fate, Report, next_report};
pub use within::Within;
