//! Styles of boxes with the sizes to which their lengths refer.

ghost use Rattle.std.specs.Prelude.{Some};
ghost use Rattle.std.proofs.Props.{props};
ghost use Rattle.style_types.specs.Style.{IsBounded};
ghost use Rattle.relayout.specs.Reach as reach;
ghost use Rattle.relayout.specs.Reach.{IsBase};
ghost use Rattle.para_lines.specs.Bounded.{IsBounded-prop};

use crate::sizes::Containing;
use fragment_types::Constraint;
use style_types::Style;

/// A style, and the length to which its percentages refer, where that is known.
#[derive(Clone, Copy)]
pub(crate) struct BasedStyle<'a> {
    pub(crate) style: &'a Style,
    pub(crate) base: Option<i64>,

    ghost bounded: { IsBounded style.now } by { IsBounded-prop style.now },
    ghost within: { IsBase base } by { Prim.hlevel props },
}

/// The style of a box in its containing block: what that is to the box, and its sizes.
#[derive(Clone, Copy)]
pub(crate) struct ContainedStyle<'a> {
    pub(crate) containing: Containing,
    pub(crate) style: &'a Style,
    pub(crate) c: Constraint,

    ghost bounded: { IsBounded style.now } by { IsBounded-prop style.now },
    ghost within: { reach.IsBounded c } by { Prim.hlevel props },
}

/// The style of a block-level box in a containing block of this inline size.
#[derive(Clone, Copy)]
pub(crate) struct ChildStyle<'a> {
    pub(crate) containing: Containing,
    pub(crate) style: &'a Style,
    pub(crate) inline: i64,

    ghost bounded: { IsBounded style.now } by { IsBounded-prop style.now },
    ghost within: { IsBase (Some inline) } by { Prim.hlevel props },
}

impl<'a> ContainedStyle<'a> {
    ghost use Rattle.std.specs.Prelude.{◌≡◌};

    /// The style, where percentages refer to the inline size of the containing block.
    pub(crate) fn based_style(&self) -> BasedStyle<'a>
        ensures style { result.style.now ≡ self.now.style.now }
        ensures base { result.base ≡ self.now.c.inline }
    {
        BasedStyle {
            style: self.style,
            base: self.c.inline,
        }
    }
}

impl<'a> ChildStyle<'a> {
    ghost use Rattle.std.specs.Prelude.{◌≡◌};

    /// The style, where percentages refer to the inline size of the containing block.
    pub(crate) fn based_style(&self) -> BasedStyle<'a>
        ensures style { result.style.now ≡ self.now.style.now }
        ensures base { result.base ≡ Some self.now.inline }
    {
        BasedStyle {
            style: self.style,
            base: Some(self.inline),
        }
    }
}
