//! The repertoire: the characters that a text may have. Of each it tells the bidi class (UAX 9, table 4), the
//! orientation in a vertical line (UAX 50), the break class, the mirror and the bracket (UAX 9, 3.1.3 and 3.4).
#![tactic(auto)]

mod classes;
pub mod laws;
mod pairs;
mod ranges;
mod repertoire;
mod rows;

pub use classes::{BidiClass, Bracket, BreakClass, Orient};
pub use pairs::{bracket, mirror};
pub use repertoire::{bidi_class, break_class, orientation};
