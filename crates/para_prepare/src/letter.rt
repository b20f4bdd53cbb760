//! Characters of a paragraph that are kept.

/// A kept character, and its place in its node's whole text.
#[derive(Clone, Copy)]
pub(crate) struct Letter {
    pub(crate) place: u32,
    pub(crate) char: char,
}
