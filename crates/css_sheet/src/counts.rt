//! The counts of a selector (Selectors 3, 9).

/// How specific a selector is (Selectors 3, 9): the counts of its ids, its classes and its types, compared in this
/// order. A count past the last number of u32 counts as that number.
#[derive(Clone, Copy, Debug, PartialEq, Eq, PartialOrd, Ord)]
pub struct Specificity {
    pub ids: u32,
    pub classes: u32,
    pub types: u32,
}
