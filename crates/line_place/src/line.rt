//! What a line is made of (CSS 2, 9.4.2).

use fragment_types::{Fragment, Glyphs, UnitKind};
use style_types::Align;
use wm_chars::BidiClass;
use wm_modes::{Direction, WritingMode};

/// The extents of an inline box over and under the line's baseline, in units of 1/64 px (CSS 2, 10.8.1).
#[derive(Clone, Copy, Debug, PartialEq, Eq)]
pub struct Extents {
    /// How far its text reaches over and under its own baseline.
    pub ascent: i64,
    pub descent: i64,
    /// How far its line height reaches over and under the line's baseline.
    pub over: i64,
    pub under: i64,
    /// How far its baseline stands over that of the line: the sum of the lengths of `vertical-align` of itself and the
    /// inline boxes round it.
    pub raised: i64,
}

/// The items of a line in logical order.
pub type LineItems<'a> = Vec<LineItem<'a>>;

/// The inline boxes of a line, each behind those round it.
pub type LineBoxes = Vec<LineBox>;

/// An item of a line. Lengths are in units of 1/64 px.
#[derive(Clone, Copy, Debug)]
pub struct LineItem<'a> {
    /// Its resolved level (UAX 9, I1 and I2), and the class of its last character, for L1.
    pub level: u8,
    pub class: BidiClass,
    /// Its extent along the line: the advance of a unit, one font size for a combined run, the margin box of an atom. A
    /// Space at the end of the line brings its whole extent too.
    pub extent: i64,
    /// The place among the line's boxes of the innermost inline box round it.
    pub inside: Option<usize>,
    /// Whether it is a Space unit.
    pub space: bool,
    /// The least level of the bidi controls between it and the item before it that X9 leaves in the line.
    pub apart: Option<u8>,
    pub what: LineContent<'a>,
}

/// What an item is. Lengths are in units of 1/64 px.
#[derive(Clone, Copy, Debug)]
pub enum LineContent<'a> {
    /// A unit of a text node: the places of its first character in the node's text and after its last.
    Unit {
        node: u32,
        first: u32,
        end: u32,
        form: UnitKind,
        glyphs: &'a Glyphs,
    },
    /// A combined run of a text node, with the sum of the plain advances of its units.
    Combined {
        node: u32,
        first: u32,
        end: u32,
        natural: i64,
        glyphs: &'a Glyphs,
    },
    /// An inline-block, laid out: its margins at line-left and line-over, and the extents of its margin box over and under
    /// the line's baseline.
    Atom {
        fragment: &'a Fragment,
        left_margin: i64,
        over_margin: i64,
        over: i64,
        under: i64,
    },
    /// A `br`.
    Break,
}

/// An inline box of a line. Lengths are in units of 1/64 px.
#[derive(Clone, Copy, Debug, PartialEq, Eq)]
pub struct LineBox {
    pub node: u32,
    /// The place among the line's boxes of the box round it.
    pub outer: Option<usize>,
    pub extents: Extents,
    /// Its used direction.
    pub dir: Direction,
    /// Its borders and paddings on the sides of the line.
    pub left: i64,
    pub right: i64,
    pub over: i64,
    pub under: i64,
    pub left_margin: i64,
    pub right_margin: i64,
    /// Whether its inline-start edges stand on this line.
    pub first: bool,
    /// Whether its inline-end edges stand on this line.
    pub last: bool,
}

/// What a line is placed in: all of it but its items. Lengths are in units of 1/64 px.
#[derive(Clone, Copy, Debug)]
pub struct LineFrame<'a> {
    /// The base level of its bidi paragraph, 0 or 1.
    pub base: u8,
    pub align: Align,
    /// The inline size that the line may take.
    pub available: i64,
    /// The extents of the container's strut.
    pub strut: Extents,
    pub boxes: &'a [LineBox],
}

/// A line that is to be placed. Lengths are in units of 1/64 px.
#[derive(Debug, Drop)]
pub struct LineInput<'a> {
    pub mode: WritingMode,
    /// The base level of its bidi paragraph, 0 or 1.
    pub base: u8,
    pub align: Align,
    /// The inline size that the line may take.
    pub available: i64,
    /// The extents of the container's strut.
    pub strut: Extents,
    pub items: LineItems<'a>,
    pub boxes: LineBoxes,
}
