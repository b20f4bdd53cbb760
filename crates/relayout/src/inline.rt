//! The inline size of a box, and where its parent puts it (CSS 2, 10.3.3 and 10.3.9; CSS Writing Modes 4, 7.3).

ghost use Rattle.std.specs.Prelude.{◌≡◌, ◌≤◌, ◌^◌, Some, pos, unwrap_or, unsigned_abs, ◌≤ℤ◌};
ghost use Rattle.size_rules.specs.Equation.{length_of};
ghost use Rattle.relayout.specs.Inline as rule;
ghost use Rattle.relayout.specs.Reach.{IsBase, IsPageView};
ghost use Rattle.relayout.specs.Sizes.{is_parallel};

use crate::sizes::is_atom;
use crate::styled::{ChildStyle, ContainedStyle};
use line_fill::Intrinsic;
use ortho_flow::available;
use size_rules::{Used, fit, inline_equation};
use wm_modes::{FlowSide, side_of};

/// The view's sizes across and down the page, from 0 to 2^32 units of 1/64 px.
#[derive(Clone, Copy, Debug, PartialEq, Eq)]
pub(crate) struct PageView {
    pub(crate) across: i64,
    pub(crate) down: i64,
}

impl PageView {
    fn on(self, across: bool) -> i64
        requires view { IsPageView self }
        ensures value { result ≡ rule.view_on across self }
        ensures near { unsigned_abs result ≤ 2 ^ 32 }
    {
        if across { self.across } else { self.down }
    }
}

impl ChildStyle<'_> {
    // The margin at the inline-start, unless it is auto.
    #[tactic(auto, using(crate::proofs::InlineLaws::near_length))]
    fn start_margin(&self) -> Option<i64>
        ensures value { result ≡ rule.start_margin self.now.containing self.now.style.now self.now.inline }
        ensures near { length_of result ≤ 2 ^ 32 }
    {
        let side = side_of(
            self.containing.mode,
            self.containing.dir,
            FlowSide::InlineStart,
        );
        self.based_style().margin(side)
    }

    // The margin at the inline-end.
    #[tactic(auto, using(crate::proofs::InlineLaws::near_length))]
    fn end_margin(&self) -> Option<i64>
        ensures value { result ≡ rule.end_margin self.now.containing self.now.style.now self.now.inline }
        ensures near { length_of result ≤ 2 ^ 32 }
    {
        let side = side_of(
            self.containing.mode,
            self.containing.dir,
            FlowSide::InlineEnd,
        );
        self.based_style().margin(side)
    }

    /// The inline equation of a box that goes along its containing block's lines (CSS 2, 10.3.3).
    #[tactic(auto, unfolding(crate::specs::Inline::equation_of))]
    pub(crate) fn equation(&self) -> Used
        ensures value { result ≡ rule.equation_of self.now.containing self.now.style.now self.now.inline }
        ensures size_low { pos 0 ≤ℤ result.size }
        ensures size_high { result.size ≤ℤ pos (2 ^ 32) }
        ensures start_near { unsigned_abs result.start ≤ 2 ^ 35 }
    {
        let based = self.based_style();
        let sizes = based.sizes_along(self.containing.mode);
        let edges = based.inner_edges_along(self.containing.mode);
        let start = self.start_margin();
        let end = self.end_margin();
        inline_equation(
            self.inline,
            edges,
            sizes.size,
            sizes.min,
            sizes.max,
            start,
            end,
        )
    }

    /// Where the border box of a box of this extent stands from the inline-start edge of its containing block.
    #[tactic(auto, unfolding(crate::specs::Inline::inline_place))]
    pub(crate) fn inline_place(&self, extent: i64) -> i64
        requires { unsigned_abs extent ≤ 2 ^ 36 }
        ensures value { result ≡ rule.inline_place self.now.containing self.now.inline self.now.style.now extent }
        ensures near { unsigned_abs result ≤ 2 ^ 38 }
    {
        if self.containing.is_parallel(self.style) {
            self.equation().start
        } else {
            self.orthogonal_place(extent)
        }
    }

    // Where that of an orthogonal box stands, whose border box is the size that is given.
    fn orthogonal_place(&self, extent: i64) -> i64
        requires { unsigned_abs extent ≤ 2 ^ 36 }
        ensures value { result ≡ rule.orthogonal_place self.now.containing self.now.inline self.now.style.now extent }
        ensures near { unsigned_abs result ≤ 2 ^ 38 }
    {
        let start = self.start_margin();
        let end = self.end_margin();
        inline_equation(self.inline, extent, Some(0), 0, Some(0), start, end).start
    }
}

impl ContainedStyle<'_> {
    /// The inline size that is definite, as it doesn't depend on the content: that of a box that fills its containing block, or one that is
    /// given.
    #[tactic(auto, unfolding(crate::specs::Inline::known_size))]
    pub(crate) fn known_size(&self) -> Option<i64>
        ensures value { result ≡ rule.known_size self.now.containing self.now.style.now self.now.c }
        ensures near { IsBase result }
    {
        self.known_by(self.fills())
    }

    // Whether it fills its containing block's inline size.
    fn fills(&self) -> bool
        ensures { result ≡ rule.fills self.now.containing self.now.style.now }
    {
        self.containing.is_parallel(self.style) && !is_atom(self.style.display)
    }

    fn known_by(&self, fills: bool) -> Option<i64>
        ensures value { result ≡ rule.known_by fills self.now.containing self.now.style.now self.now.c }
        ensures near { IsBase result }
    {
        if fills {
            Some(self.filling_size())
        } else {
            self.inline_sizes().given()
        }
    }

    // The inline size of a box that fills its containing block. One that isn't known counts as 0.
    fn filling_size(&self) -> i64
        ensures value { result ≡ (rule.equation_of self.now.containing self.now.style.now (unwrap_or self.now.c.inline (pos 0))).size }
        ensures near { IsBase (Some result) }
    {
        let child = ChildStyle {
            containing: self.containing,
            style: self.style,
            inline: self.c.inline.unwrap_or(0),
        };
        child.equation().size
    }

    /// It shrinks to fit its content, which has these sizes.
    pub(crate) fn shrunk(&self, view: PageView, content: Intrinsic) -> i64
        requires { IsPageView view }
        ensures value { result ≡ rule.shrunk view self.now.containing self.now.style.now self.now.c content }
        ensures near { IsBase (Some result) }
    {
        let size = fit(content.min, content.max, self.room(view));
        self.inline_sizes().hold(size)
    }

    // The available size on the inline axis of a box with an auto size, which doesn't fill its containing block (CSS 2, 10.3.9; CSS
    // Writing Modes 4, 7.3.1).
    fn room(&self, view: PageView) -> i64
        requires { IsPageView view }
        ensures { result ≡ rule.room view (is_parallel self.now.containing self.now.style.now) self.now.c self.now.style.now.mode (rule.around self.now.style.now self.now.c) }
    {
        let around = self.around();
        if self.containing.is_parallel(self.style) {
            available(self.c.inline, 0, around)
        } else {
            let across = self.style.mode.is_horizontal();
            available(self.c.block, view.on(across), around)
        }
    }

    // The margins, borders and paddings on its inline axis.
    fn around(&self) -> i64
        ensures value { result ≡ rule.around self.now.style.now self.now.c }
        ensures near { unsigned_abs result ≤ 2 ^ 35 }
    {
        let based = self.based_style();
        based.inner_edges_along(self.style.mode) + based.margins_along(self.style.mode)
    }
}
