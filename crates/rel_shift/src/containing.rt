//! Containing blocks of relatively positioned elements, and the shift in one (CSS Positioned Layout 3, 3.2 to 3.4).

ghost use Rattle.std.specs.Prelude.{◌≡◌, ◌^◌, IfSome};
ghost use Rattle.rel_shift.specs.Bounds.{IsSized, IsWithin};
ghost use Rattle.rel_shift.specs.Own as rule;
ghost use Rattle.style_types.specs.Style.{AreInsets, IsLength};

use crate::insets::{Shift, inset_on};
use size_rules::resolved;
use style_types::Insets;
use wm_modes::{Direction, FlowSide, Side, WritingMode, side_of};

/// A containing block: its mode and its used direction, its inline size and its definite block size, or none, in units of
/// 1/64 px.
#[derive(Clone, Copy)]
pub(crate) struct Containing {
    pub(crate) mode: WritingMode,
    pub(crate) dir: Direction,
    pub(crate) inline: i64,
    pub(crate) block: Option<i64>,
}

impl Containing {
    /// The shift of a box with these insets.
    pub(crate) fn shift(self, insets: &Insets) -> Shift
        requires sized { IsSized self }
        requires bounded { AreInsets insets.now }
        ensures value { result ≡ rule.own_shift insets.now self }
        ensures within { IsWithin (2 ^ 32) result }
    {
        let along = self.on_axis(insets, FlowSide::InlineStart, FlowSide::InlineEnd);
        let across = self.on_axis(insets, FlowSide::BlockStart, FlowSide::BlockEnd);
        along.plus(across)
    }

    // The shift on the axis between two sides.
    fn on_axis(self, insets: &Insets, start: FlowSide, end: FlowSide) -> Shift
        requires sized { IsSized self }
        requires bounded { AreInsets insets.now }
        ensures value { result ≡ rule.on_axis insets.now self start end }
        ensures within { IsWithin (2 ^ 32) result }
    {
        let start = side_of(self.mode, self.dir, start);
        let end = side_of(self.mode, self.dir, end);
        Shift::towards(
            end,
            toward_end(self.inset(insets, start), self.inset(insets, end)),
        )
    }

    // The inset of a side; None is auto.
    fn inset(self, insets: &Insets, side: Side) -> Option<i64>
        requires sized { IsSized self }
        requires bounded { AreInsets insets.now }
        ensures value { result ≡ rule.inset insets.now self side }
        ensures length { IfSome result IsLength }
    {
        resolved(inset_on(insets, side), self.base(side))
    }

    // What a percentage of the inset of a side refers to.
    fn base(self, side: Side) -> Option<i64>
        ensures { result ≡ rule.base self side }
    {
        match side {
            Side::Left | Side::Right => self.width(),
            Side::Top | Side::Bottom => self.height(),
        }
    }

    fn width(self) -> Option<i64>
        ensures { result ≡ rule.width self }
    {
        if self.mode.is_horizontal() {
            Some(self.inline)
        } else {
            self.block
        }
    }

    fn height(self) -> Option<i64>
        ensures { result ≡ rule.height self }
    {
        if self.mode.is_horizontal() {
            self.block
        } else {
            Some(self.inline)
        }
    }
}

// How far the insets of a start side and an end side shift towards the end side.
fn toward_end(start: Option<i64>, end: Option<i64>) -> i64
    requires start { IfSome start IsLength }
    requires end { IfSome end IsLength }
    ensures value { result ≡ rule.toward_end start end }
    ensures length { IsLength result }
{
    match (start, end) {
        (Some(start), _) => start,
        (None, Some(end)) => -end,
        (None, None) => 0,
    }
}
