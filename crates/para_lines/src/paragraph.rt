//! What a paragraph's lines stand in, and the inline-blocks in them.

use fragment_types::{BoxName, Fragment};
use style_types::Style;

/// The block container of a paragraph: its name, its style, and its inline size in units of 1/64 px, which lines may take and
/// to which percentages refer.
#[derive(Clone, Copy, Debug)]
pub struct Container {
    pub name: BoxName,
    pub style: Style,
    pub size: i64,
}

/// An inline-block of a paragraph, laid out. Lengths are in units of 1/64 px.
#[derive(Debug, Drop)]
pub struct Atom {
    pub fragment: Fragment,
    /// The extent of its margin box along the line.
    pub extent: i64,
    /// Its margins at line-left and line-over.
    pub left_margin: i64,
    pub over_margin: i64,
    /// How far its margin box reaches over and under its baseline.
    pub over: i64,
    pub under: i64,
    /// Its own length of `vertical-align`.
    pub shift: i64,
}
