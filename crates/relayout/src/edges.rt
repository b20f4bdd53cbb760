//! Margins, and borders with paddings, on the sides of the page (CSS 2, 8.3 to 8.5).

ghost use Rattle.std.specs.Prelude.{◌≡◌, ◌≤◌, ◌^◌, IfSome, unsigned_abs};
ghost use Rattle.style_types.specs.Style.{IsLength};
ghost use Rattle.wm_modes.specs.Sides as modes;
ghost use Rattle.wm_modes.specs.declared.mode.Direction.TheVariants.{Ltr};
ghost use Rattle.para_lines.specs.Edges as sides;
ghost use Rattle.relayout.specs.Edges as rule;

use crate::styled::BasedStyle;
use size_rules::{resolved_margin, resolved_or_zero};
use style_types::{SideSizes, SideWidths, Size};
use wm_modes::{Direction, FlowSide, Side, WritingMode, side_of};

impl BasedStyle<'_> {
    /// The margin of a box on a side of the page, unless it is auto.
    pub(crate) fn margin(&self, side: Side) -> Option<i64>
        ensures value { result ≡ rule.margin self.now.style.now self.now.base side }
        ensures near { IfSome result IsLength }
    {
        let margin = size_on(&self.style.margin, side);
        resolved_margin(margin, self.base)
    }

    /// The margin of a box on a side of the page, where an auto margin counts as 0.
    pub(crate) fn margin_or_zero(&self, side: Side) -> i64
        ensures value { result ≡ rule.margin_or_zero self.now.style.now self.now.base side }
        ensures near { unsigned_abs result ≤ 2 ^ 32 }
    {
        self.margin(side).unwrap_or(0)
    }

    /// Border and padding of a box on a side of the page.
    pub(crate) fn inner_edge(&self, side: Side) -> i64
        ensures value { result ≡ rule.inner_edge self.now.style.now self.now.base side }
        ensures near { unsigned_abs result ≤ 2 ^ 33 }
    {
        self.border(side) + self.padding(side)
    }

    /// The border of a box on a side of the page.
    pub(crate) fn border(&self, side: Side) -> i64
        ensures value { result ≡ sides.width_on self.now.style.now.border side }
        ensures near { unsigned_abs result ≤ 2 ^ 32 }
    {
        width_on(&self.style.border, side)
    }

    /// The padding of a box on a side of the page.
    pub(crate) fn padding(&self, side: Side) -> i64
        ensures value { result ≡ rule.padding self.now.style.now self.now.base side }
        ensures near { unsigned_abs result ≤ 2 ^ 32 }
    {
        let padding = size_on(&self.style.padding, side);
        resolved_or_zero(padding, self.base)
    }

    /// Borders and paddings on both sides of a line in this mode.
    pub(crate) fn inner_edges_along(&self, mode: WritingMode) -> i64
        ensures value { result ≡ rule.inner_edges_along self.now.style.now self.now.base mode }
        ensures near { unsigned_abs result ≤ 2 ^ 34 }
    {
        self.inner_edge(side_in(mode, FlowSide::LineLeft))
            + self.inner_edge(side_in(mode, FlowSide::LineRight))
    }

    /// Borders and paddings at both ends of a block in this mode.
    pub(crate) fn inner_edges_across(&self, mode: WritingMode) -> i64
        ensures value { result ≡ rule.inner_edges_across self.now.style.now self.now.base mode }
        ensures near { unsigned_abs result ≤ 2 ^ 34 }
    {
        self.inner_edge(side_in(mode, FlowSide::BlockStart))
            + self.inner_edge(side_in(mode, FlowSide::BlockEnd))
    }

    /// Margins on both sides of a line in this mode.
    pub(crate) fn margins_along(&self, mode: WritingMode) -> i64
        ensures value { result ≡ rule.margins_along self.now.style.now self.now.base mode }
        ensures near { unsigned_abs result ≤ 2 ^ 33 }
    {
        self.margin_or_zero(side_in(mode, FlowSide::LineLeft))
            + self.margin_or_zero(side_in(mode, FlowSide::LineRight))
    }

    /// Margins over and under a line in this mode.
    pub(crate) fn margins_over(&self, mode: WritingMode) -> i64
        ensures value { result ≡ rule.margins_over self.now.style.now self.now.base mode }
        ensures near { unsigned_abs result ≤ 2 ^ 33 }
    {
        self.margin_or_zero(side_in(mode, FlowSide::LineOver))
            + self.margin_or_zero(side_in(mode, FlowSide::LineUnder))
    }
}

/// Which side of the page a side of a line or of a block is in this mode. It depends on no direction.
pub(crate) fn side_in(mode: WritingMode, side: FlowSide) -> Side
    ensures { result ≡ modes.side_of mode Ltr side }
{
    side_of(mode, Direction::Ltr, side)
}

fn size_on(sizes: &SideSizes, side: Side) -> Size
    ensures { result ≡ sides.size_on sizes.now side }
{
    match side {
        Side::Top => sizes.top,
        Side::Right => sizes.right,
        Side::Bottom => sizes.bottom,
        Side::Left => sizes.left,
    }
}

fn width_on(widths: &SideWidths, side: Side) -> i64
    ensures { result ≡ sides.width_on widths.now side }
{
    match side {
        Side::Top => widths.top,
        Side::Right => widths.right,
        Side::Bottom => widths.bottom,
        Side::Left => widths.left,
    }
}
