//! Under which sizes of its containing block a box is laid out (CSS 2, 10.1).

/// What laying a box out depends on from outside: its containing block's inline size, known or unknown, and
/// its definite block size or none, in units of 1/64 px.
#[derive(Clone, Copy, Debug, PartialEq, Eq)]
pub struct Constraint {
    pub inline: Option<i64>,
    pub block: Option<i64>,
}
