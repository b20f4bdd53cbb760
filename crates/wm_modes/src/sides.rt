//! The sides of the page and of a flow (CSS Writing Modes 4, 6.1 to 6.4).

ghost use Rattle.std.specs.Prelude.{◌≡◌};
ghost use Rattle.wm_modes.specs.Sides as sides;

use crate::mode::{Direction, WritingMode};

/// A side of the page.
#[derive(Clone, Copy, Debug, PartialEq, Eq)]
pub enum Side {
    Top,
    Right,
    Bottom,
    Left,
}

/// A side of a flow: by the block axis, by the inline axis, or by the line (CSS Writing Modes 4, 6.2 and 6.3).
#[derive(Clone, Copy, Debug, PartialEq, Eq)]
pub enum FlowSide {
    BlockStart,
    BlockEnd,
    InlineStart,
    InlineEnd,
    LineOver,
    LineUnder,
    LineLeft,
    LineRight,
}

/// Which side of the page a side of a flow is, in a mode and a used direction (CSS Writing Modes 4, 6.4).
pub fn side_of(mode: WritingMode, dir: Direction, side: FlowSide) -> Side
    ensures { result ≡ sides.side_of mode dir side }
{
    match side {
        FlowSide::BlockStart => block_start(mode),
        FlowSide::BlockEnd => opposite(block_start(mode)),
        FlowSide::InlineStart => inline_start(mode, dir),
        FlowSide::InlineEnd => opposite(inline_start(mode, dir)),
        FlowSide::LineOver => line_over(mode),
        FlowSide::LineUnder => opposite(line_over(mode)),
        FlowSide::LineLeft => line_left(mode),
        FlowSide::LineRight => opposite(line_left(mode)),
    }
}

/// The used direction of a box whose text is upright or not: `Ltr` where upright text stands in the lines of
/// `vertical-rl` or `vertical-lr`, else the computed one (CSS Writing Modes 4, 5.1).
pub fn used_direction(mode: WritingMode, is_upright: bool, computed: Direction) -> Direction
    ensures { result ≡ sides.used_direction mode is_upright computed }
{
    if is_upright && mode.has_upright_text() {
        Direction::Ltr
    } else {
        computed
    }
}

fn opposite(side: Side) -> Side
    ensures { result ≡ sides.opposite side }
{
    match side {
        Side::Top => Side::Bottom,
        Side::Right => Side::Left,
        Side::Bottom => Side::Top,
        Side::Left => Side::Right,
    }
}

fn block_start(mode: WritingMode) -> Side
    ensures { result ≡ sides.block_start mode }
{
    match mode {
        WritingMode::HorizontalTb => Side::Top,
        WritingMode::VerticalRl => Side::Right,
        WritingMode::VerticalLr => Side::Left,
        WritingMode::SidewaysRl => Side::Right,
        WritingMode::SidewaysLr => Side::Left,
    }
}

fn inline_start(mode: WritingMode, dir: Direction) -> Side
    ensures { result ≡ sides.inline_start mode dir }
{
    match dir {
        Direction::Ltr => line_left(mode),
        Direction::Rtl => opposite(line_left(mode)),
    }
}

fn line_over(mode: WritingMode) -> Side
    ensures { result ≡ sides.line_over mode }
{
    match mode {
        WritingMode::HorizontalTb => Side::Top,
        WritingMode::VerticalRl => Side::Right,
        WritingMode::VerticalLr => Side::Right,
        WritingMode::SidewaysRl => Side::Right,
        WritingMode::SidewaysLr => Side::Left,
    }
}

fn line_left(mode: WritingMode) -> Side
    ensures { result ≡ sides.line_left mode }
{
    match mode {
        WritingMode::HorizontalTb => Side::Left,
        WritingMode::VerticalRl => Side::Top,
        WritingMode::VerticalLr => Side::Top,
        WritingMode::SidewaysRl => Side::Top,
        WritingMode::SidewaysLr => Side::Bottom,
    }
}
