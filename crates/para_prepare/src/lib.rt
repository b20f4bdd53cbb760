//! The text of a paragraph, prepared for its lines: kept white space (CSS Text 3, 4.1), units and combined runs (CSS
//! Writing Modes 4), bidi levels (UAX 9), places where lines may end.
#![tactic(auto)]

mod adding;
mod bidi_paragraphs;
mod bidi_text;
mod boxes;
mod breaks;
mod classes;
mod content;
mod flat;
mod inside;
mod item;
mod items;
mod kept;
mod latin;
mod letter;
mod lists;
mod parts;
mod place;
mod preparation;
mod resources;
mod singles;
mod standing;
mod text;
mod white;

pub use breaks::BreakList;
pub use item::{CombinedGlyphs, PreparedContent, PreparedItem, PreparedItems};
pub use preparation::{LentParagraph, Paragraph, Prepared, prepare, prepare_lent};
