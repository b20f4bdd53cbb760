//! A paragraph behind X1 to X9, and its isolating run sequences (UAX 9, BD13).

use wm_chars::BidiClass;

/// Embedding levels, one for each character.
pub type LevelList = Vec<u8>;

/// Bidi classes, one for each character.
pub type ClassList = Vec<BidiClass>;

/// Marks, one for each character.
pub type MarkList = Vec<bool>;

/// Places of characters: how many stand before each.
pub type PlaceList = Vec<usize>;

/// Isolating run sequences, in the order of their first characters.
pub type Runs = Vec<Run>;

/// A bidi paragraph behind the rules X1 to X9 of UAX 9 (3.3.2). All its lists have one length.
#[derive(Drop)]
pub struct Levels {
    /// The base level, 0 or 1.
    pub base: u8,
    /// The level of each character, at most 125.
    pub level: LevelList,
    /// The classes as the rules leave them: an override stands in place of the character's own class.
    pub class: ClassList,
    /// The classes that were handed in.
    pub original: ClassList,
    /// What X9 removes: the embeddings, the overrides and PDF.
    pub removed: MarkList,
}

/// An isolating run sequence (UAX 9, BD13 and X10).
#[derive(Drop)]
pub struct Run {
    /// The places of its characters, which rise. What X9 removes is not among them.
    pub places: PlaceList,
    /// What stands before its first character: R or L.
    pub sos: BidiClass,
    /// What stands behind its last character: R or L.
    pub eos: BidiClass,
}

/// Spans of isolating run sequences.
pub type SpanList = Vec<RunSpan>;

/// One isolating run sequence (UAX 9, BD13 and X10), whose places stand one behind the other in a list of the places of
/// many.
#[derive(Clone, Copy)]
pub struct RunSpan {
    /// Where its places begin in the list.
    pub start: usize,
    /// Where they end.
    pub stop: usize,
    /// What stands before its first character: R or L.
    pub sos: BidiClass,
    /// What stands behind its last character: R or L.
    pub eos: BidiClass,
}

/// The isolating run sequences of a paragraph, with all their places in one list.
#[derive(Drop)]
pub struct FlatRuns {
    /// The places of the first sequence, then those of the second, and so on.
    pub places: PlaceList,
    /// The sequences, in the order of their first characters.
    pub spans: SpanList,
}
