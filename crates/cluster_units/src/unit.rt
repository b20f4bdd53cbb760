//! Units: pieces of text that no line divides (CSS Writing Modes 4, 5.1 and 9.1).

use fragment_types::UnitKind;
use wm_chars::BreakClass;

/// A piece of text that no line divides: a grapheme cluster (UAX 29), or a combined run. Lengths are in units
/// of 1/64 px.
#[derive(Clone, Copy, Debug, PartialEq, Eq)]
pub struct Unit {
    /// The place of its first character in the text, from 0.
    pub first: usize,
    /// The place after its last character.
    pub end: usize,
    pub kind: UnitKind,
    /// Its extent on the line.
    pub advance: i64,
    /// What its advances come to: of a combined run the sum of the plain ones, else the advance.
    pub natural: i64,
    /// What it means for the places where a line may end. A combined run is Ideographic.
    pub break_class: BreakClass,
}

/// Units in the order of the text.
pub type Units = Vec<Unit>;
