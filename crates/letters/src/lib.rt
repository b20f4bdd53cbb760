//! Texts: names, which have bytes of their own, and the texts of a document, whose copies share their bytes.
#![tactic(auto)]

mod shared_text;

pub use shared_text::SharedText;

/// A name, or a text that is being put together.
pub type Letters = String;

/// Names in order.
pub type LetterList = Vec<Letters>;
