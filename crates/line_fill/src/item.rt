//! What a paragraph brings to its lines.

use fragment_types::Breaking;

/// An item of a paragraph as lines take it: a unit of text, an atomic inline or a forced line break. Lengths are in
/// units of 1/64 px on the inline axis.
#[derive(Clone, Copy, Debug, PartialEq, Eq)]
pub struct FillItem {
    /// How far the item itself advances.
    pub advance: i64,
    /// The edges of inline boxes that begin with it: margins, borders and paddings, which may come to less than 0.
    pub before: i64,
    /// The edges of inline boxes that end with it.
    pub after: i64,
    /// Whether it is a space, which hangs at the end of a line.
    pub space: bool,
    /// Whether a line may end behind it.
    pub end: Breaking,
}

/// The intrinsic sizes of a paragraph (CSS 2, 10.3.5), each from 0 to 2^32 units of 1/64 px.
#[derive(Clone, Copy, Debug, PartialEq, Eq)]
pub struct Intrinsic {
    /// The min-content size: with every break taken.
    pub min: i64,
    /// The max-content size: with none taken but forced ones.
    pub max: i64,
}
