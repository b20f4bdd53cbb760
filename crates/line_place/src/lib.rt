//! Line boxes: the visual order of a line's items, its inline boxes, runs and atoms as fragments, and its extents over
//! and under the baseline (CSS 2, 9.4.2 and 10.8; CSS Writing Modes 4, 4.2; UAX 9, 3.4).
#![tactic(auto)]

mod empty;
pub mod laws;
mod leading;
mod leaves;
mod line;
mod line_box;
mod line_text;
mod marks;
mod measure;
mod runs;
mod source;
mod walk;

pub use empty::NoFragments;
pub use leading::extents;
pub use line::{
    Extents, LineBox, LineBoxes, LineContent, LineFrame, LineInput, LineItem, LineItems,
};
pub use line_box::{place_line, place_line_from, place_line_with};
pub use line_text::LineText;
pub use source::LineSource;
