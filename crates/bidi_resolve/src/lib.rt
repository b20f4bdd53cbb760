//! The weak and neutral rules of the Unicode Bidirectional Algorithm (UAX 9, 3.3.4 to 3.3.6): W1 to W7, N0 to N2,
//! I1 and I2 on one isolating run sequence, and the levels of a whole paragraph.
#![tactic(auto)]

mod alone;
mod brackets;
mod isolating;
pub mod laws;
mod neutral;
mod pairing;
mod paragraph;
mod places;
mod runs;
mod sequence;
mod sides;
mod single;
mod text;
mod weak;

pub use paragraph::{paragraph_levels, text_classes, text_levels};
pub use sequence::resolve;
