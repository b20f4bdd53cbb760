//! Margins, borders and paddings of inline boxes (CSS 2, 8.3 to 8.5).

ghost use Rattle.std.specs.Prelude.{◌≡◌, ◌≤◌, ◌^◌, unsigned_abs};
ghost use Rattle.std.proofs.Props.{props};
ghost use Rattle.style_types.specs.Style.{IsBounded, IsMargin};
ghost use Rattle.para_lines.specs.Bounded.{IsBounded-prop};
ghost use Rattle.para_lines.specs.Conditions.{IsContainer-prop};
ghost use Rattle.para_lines.specs.Edges as rule;
ghost use Rattle.para_lines.specs.Paragraph.{IsContainer};
ghost use Rattle.para_lines.specs.Reach.{IsInlineSize};

use crate::paragraph::Container;
use size_rules::resolved_or_zero;
use style_types::{SideSizes, SideWidths, Size, Style};
use wm_modes::{Direction, FlowSide, Side, side_of};

/// The edges of an inline box in this style, where its containing block has this inline size or one that isn't known.
#[derive(Clone, Copy)]
pub(crate) struct BoxEdges<'a> {
    pub(crate) style: &'a Style,
    pub(crate) inline: Option<i64>,

    ghost bounded: { IsBounded style.now } by { IsBounded-prop style.now },
    ghost size: { IsInlineSize inline } by { Prim.hlevel props },
}

impl BoxEdges<'_> {
    /// The margin on a side of the page.
    pub(crate) fn margin_on(&self, side: Side) -> i64
        ensures value { result ≡ rule.margin_on self.now.inline self.now.style.now side }
        ensures near { unsigned_abs result ≤ 2 ^ 32 }
    {
        self.resolved(size_on(&self.style.margin, side))
    }

    /// The border and the padding on a side of the page.
    pub(crate) fn inner_edge_on(&self, side: Side) -> i64
        ensures value { result ≡ rule.inner_edge_on self.now.inline self.now.style.now side }
        ensures near { unsigned_abs result ≤ 2 ^ 33 }
    {
        width_on(&self.style.border, side) + self.resolved(size_on(&self.style.padding, side))
    }

    /// The whole edge at the inline-start or the inline-end.
    pub(crate) fn inline_edge(&self, side: FlowSide) -> i64
        ensures value { result ≡ rule.inline_edge self.now.inline self.now.style.now side }
        ensures near { unsigned_abs result ≤ 2 ^ 34 }
    {
        let side = side_of(self.style.mode, self.style.used_direction(), side);
        self.margin_on(side) + self.inner_edge_on(side)
    }

    // A margin or a padding.
    fn resolved(&self, size: Size) -> i64
        requires { IsMargin size }
        ensures value { result ≡ rule.resolved self.now.inline size }
        ensures near { unsigned_abs result ≤ 2 ^ 32 }
    {
        resolved_or_zero(size, self.inline)
    }
}

/// The edges of an inline box in this style on the sides of the lines of its container.
#[derive(Clone, Copy)]
pub(crate) struct LineEdges<'a> {
    pub(crate) container: &'a Container,
    pub(crate) style: &'a Style,

    ghost container_is: { IsContainer container.now } by { IsContainer-prop container.now },
    ghost bounded: { IsBounded style.now } by { IsBounded-prop style.now },
}

impl LineEdges<'_> {
    ghost use Rattle.para_lines.specs.Lines as lines;

    /// The margin on a side of the lines.
    pub(crate) fn margin_at(&self, side: FlowSide) -> i64
        ensures value { result ≡ lines.margin_at self.now.container.now self.now.style.now side }
        ensures near { unsigned_abs result ≤ 2 ^ 32 }
    {
        let edges = BoxEdges {
            style: self.style,
            inline: Some(self.container.size),
        };
        edges.margin_on(side_of(self.container.style.mode, Direction::Ltr, side))
    }

    /// The border and the padding on a side of the lines.
    pub(crate) fn inner_edge_at(&self, side: FlowSide) -> i64
        ensures value { result ≡ lines.inner_edge_at self.now.container.now self.now.style.now side }
        ensures near { unsigned_abs result ≤ 2 ^ 33 }
    {
        let edges = BoxEdges {
            style: self.style,
            inline: Some(self.container.size),
        };
        edges.inner_edge_on(side_of(self.container.style.mode, Direction::Ltr, side))
    }
}

fn size_on(sides: &SideSizes, side: Side) -> Size
    ensures { result ≡ rule.size_on sides.now side }
{
    match side {
        Side::Top => sides.top,
        Side::Right => sides.right,
        Side::Bottom => sides.bottom,
        Side::Left => sides.left,
    }
}

fn width_on(sides: &SideWidths, side: Side) -> i64
    ensures { result ≡ rule.width_on sides.now side }
{
    match side {
        Side::Top => sides.top,
        Side::Right => sides.right,
        Side::Bottom => sides.bottom,
        Side::Left => sides.left,
    }
}
