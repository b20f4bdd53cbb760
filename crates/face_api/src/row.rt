//! What a face says of itself and of a character.

/// How far a face reaches over and under its baseline, in thousandths of the font size. Each is at most
/// 4,000.
#[derive(Clone, Copy, Debug, PartialEq, Eq)]
pub struct Metrics {
    pub ascent: u32,
    pub descent: u32,
}

/// The advances of characters that have no row, in thousandths of the font size. Each is at most 10,000.
#[derive(Clone, Copy, Debug, PartialEq, Eq)]
pub struct Defaults {
    /// Of a character before U+2E80 that isn't upright.
    pub narrow: u32,
    /// Of a character from U+2E80 on that isn't upright.
    pub wide: u32,
    /// Of an upright character.
    pub upright: u32,
}

/// The advance of one character in one orientation, in thousandths of the font size. It is at most 10,000.
#[derive(Clone, Copy, Debug, PartialEq, Eq)]
pub struct Row {
    pub character: char,
    pub upright: bool,
    pub value: u32,
}
