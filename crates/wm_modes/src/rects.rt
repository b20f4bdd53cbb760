//! Rectangles of a flow and of the page (CSS Writing Modes 4, 6.1 and 6.2).

/// A rectangle in flow coordinates, in units of 1/64 px: `i` and `b` are the distances from the
/// inline-start and block-start edges of the containing block's content area, `inline` and `block` the
/// extents (CSS Writing Modes 4, 6.1 and 6.2).
#[derive(Clone, Copy, Debug, PartialEq, Eq)]
pub struct FlowRect {
    pub i: i64,
    pub b: i64,
    pub inline: i64,
    pub block: i64,
}

/// A rectangle of the page, in units of 1/64 px: `x` grows to the right, `y` downwards.
#[derive(Clone, Copy, Debug, PartialEq, Eq)]
pub struct Rect {
    pub x: i64,
    pub y: i64,
    pub w: i64,
    pub h: i64,
}
