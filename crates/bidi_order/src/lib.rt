//! The order of lines in the Unicode Bidirectional Algorithm (UAX 9, 3.4): levels at a line's end (L1), the order from
//! left to right (L2), and a paragraph that is resolved once for all its lines.
#![tactic(auto)]

mod blanks;
mod blocks;
pub mod laws;
mod line;
mod paragraph;
mod places;
mod reversals;
mod visual;

pub use blanks::reset;
pub use line::line_order;
pub use paragraph::{BidiParagraph, text_line_order};
pub use places::Order;
pub use reversals::order;
pub use visual::visual_order;
