//! The units of text: grapheme clusters with their orientation and advance, and combined runs.
#![tactic(auto)]

mod cluster;
mod gathering;
pub mod laws;
mod plain;
mod single;
mod text;
mod unit;

pub use plain::is_plain_character;
pub use single::{character_joins, character_unit, combines_none};
pub use text::units;
pub use unit::{Unit, Units};
