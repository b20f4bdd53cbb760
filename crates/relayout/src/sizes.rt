//! Sizes of boxes: what a style asks for on an axis, which sizes of the containing block it refers to, and which block size is
//! definite (CSS 2, 10.2 to 10.7; CSS Writing Modes 4, 7.1 to 7.3).

ghost use Rattle.std.specs.Prelude.{◌≡◌, ◌^◌, pos, ◌≤ℤ◌};
ghost use Rattle.style_types.specs.Style.{IsSize};
ghost use Rattle.relayout.specs.Reach as reach;
ghost use Rattle.relayout.specs.Reach.{IsBase};
ghost use Rattle.relayout.specs.Sizes as rule;

use crate::styled::{BasedStyle, ContainedStyle};
use fragment_types::Constraint;
use line_fill::Intrinsic;
use size_rules::{definite_block, resolved, resolved_or_zero, used_size};
use style_types::{Display, Size, Style};
use wm_modes::{Direction, WritingMode};

/// What a containing block is to the boxes in it: its mode and its used direction.
#[derive(Clone, Copy, Debug, PartialEq, Eq)]
pub(crate) struct Containing {
    pub(crate) mode: WritingMode,
    pub(crate) dir: Direction,
}

impl Containing {
    /// What a box is to the boxes in it.
    pub(crate) fn of(style: &Style) -> Containing
        ensures { result ≡ rule.containing_of style.now }
    {
        Containing {
            mode: style.mode,
            dir: style.used_direction(),
        }
    }

    /// Whether the lines of a box go along its own, or both go down the page (CSS Writing Modes 4, 7.3).
    pub(crate) fn is_parallel(self, style: &Style) -> bool
        ensures { result ≡ rule.is_parallel self style.now }
    {
        self.mode.is_parallel(style.mode)
    }
}

/// A size, a minimum and a maximum, in units of 1/64 px. `None` is auto, or that there is no maximum.
#[derive(Clone, Copy, Debug, PartialEq, Eq)]
pub(crate) struct Sizes {
    pub(crate) size: Option<i64>,
    pub(crate) min: i64,
    pub(crate) max: Option<i64>,
}

impl Sizes {
    /// A size held between the limits.
    pub(crate) fn hold(self, size: i64) -> i64
        ensures value { result ≡ rule.hold self size }
        ensures low { pos 0 ≤ℤ result }
        ensures high { result ≤ℤ pos (2 ^ 32) }
    {
        used_size(size, self.min, self.max)
    }

    /// The least and the greatest size of a content, held so.
    pub(crate) fn hold_both(self, content: Intrinsic) -> Intrinsic
        ensures value { result ≡ rule.hold_both self content }
        ensures near { reach.IsContent result }
    {
        Intrinsic {
            min: self.hold(content.min),
            max: self.hold(content.max),
        }
    }

    /// The size, held, unless it is auto.
    pub(crate) fn given(self) -> Option<i64>
        ensures value { result ≡ rule.given self }
        ensures near { IsBase result }
    {
        let size = self.size?;
        Some(self.hold(size))
    }
}

/// A size, a minimum and a maximum, as a style declares them.
#[derive(Clone, Copy, Debug, PartialEq, Eq)]
struct DeclaredSizes {
    size: Size,
    min: Size,
    max: Size,
}

impl BasedStyle<'_> {
    // What the style declares across the page or down the page.
    fn declared_on(&self, across: bool) -> DeclaredSizes
        ensures value { result ≡ rule.declared_on across self.now.style.now }
        ensures size { IsSize result.size }
        ensures min { IsSize result.min }
        ensures max { IsSize result.max }
    {
        if across {
            DeclaredSizes {
                size: self.style.width,
                min: self.style.min_width,
                max: self.style.max_width,
            }
        } else {
            DeclaredSizes {
                size: self.style.height,
                min: self.style.min_height,
                max: self.style.max_height,
            }
        }
    }

    /// What the style asks for along the lines of a mode.
    pub(crate) fn sizes_along(&self, mode: WritingMode) -> Sizes
        ensures { result ≡ rule.sizes_along mode self.now.style.now self.now.base }
    {
        let declared = self.declared_on(mode.is_horizontal());
        Sizes {
            size: resolved(declared.size, self.base),
            min: resolved_or_zero(declared.min, self.base),
            max: resolved(declared.max, self.base),
        }
    }

    /// What the style asks for across the lines of a mode: the size, where it is definite.
    pub(crate) fn sizes_across(&self, mode: WritingMode) -> Sizes
        ensures { result ≡ rule.sizes_across mode self.now.style.now self.now.base }
    {
        let declared = self.declared_on(!mode.is_horizontal());
        Sizes {
            size: definite_block(declared.size, self.base),
            min: resolved_or_zero(declared.min, self.base),
            max: resolved(declared.max, self.base),
        }
    }
}

/// The size of the containing block on a box's own inline axis.
pub(crate) fn inline_base(parallel: bool, c: Constraint) -> Option<i64>
    ensures { result ≡ rule.inline_base parallel c }
{
    if parallel { c.inline } else { c.block }
}

/// The size of the containing block on a box's own block axis.
pub(crate) fn block_base(parallel: bool, c: Constraint) -> Option<i64>
    ensures { result ≡ rule.block_base parallel c }
{
    if parallel { c.block } else { c.inline }
}

impl ContainedStyle<'_> {
    /// What the style asks for on its own inline axis.
    pub(crate) fn inline_sizes(&self) -> Sizes
        ensures { result ≡ rule.inline_sizes self.now.containing self.now.style.now self.now.c }
    {
        let base = inline_base(self.containing.is_parallel(self.style), self.c);
        let based = BasedStyle {
            style: self.style,
            base,
        };
        based.sizes_along(self.style.mode)
    }

    /// What the style asks for on its own block axis.
    pub(crate) fn block_sizes(&self) -> Sizes
        ensures { result ≡ rule.block_sizes self.now.containing self.now.style.now self.now.c }
    {
        let base = block_base(self.containing.is_parallel(self.style), self.c);
        let based = BasedStyle {
            style: self.style,
            base,
        };
        based.sizes_across(self.style.mode)
    }

    /// The block size of the box, where it is definite: a length, or a percentage of a size that is (CSS 2, 10.5).
    pub(crate) fn definite(&self) -> Option<i64>
        ensures value { result ≡ rule.definite self.now.containing self.now.style.now self.now.c }
        ensures near { IsBase result }
    {
        self.block_sizes().given()
    }
}

/// Whether it stands in a paragraph as an inline-block.
pub(crate) fn is_atom(display: Display) -> bool
    ensures { result ≡ rule.is_atom display }
{
    match display {
        Display::InlineBlock => true,
        Display::Block | Display::Inline | Display::FlowRoot | Display::Hidden => false,
    }
}

/// Whether it is the root of a flow of its own.
pub(crate) fn is_flow_root(display: Display) -> bool
    ensures { result ≡ rule.is_flow_root display }
{
    match display {
        Display::InlineBlock | Display::FlowRoot => true,
        Display::Block | Display::Inline | Display::Hidden => false,
    }
}
