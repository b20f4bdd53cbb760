//! A box in its containing block.

ghost use Rattle.std.specs.Prelude.{option_copied};
ghost use Rattle.std.proofs.Props.{props};
ghost use Rattle.style_types.specs.Style.{IsBounded};
ghost use Rattle.box_gen.specs.Tree.{content_of};
ghost use Rattle.relayout.specs.Paragraph.{IsReadyIn};
ghost use Rattle.para_lines.specs.Bounded.{IsBounded-prop};
ghost use Rattle.relayout.specs.Props.{IsReadyIn-prop};
ghost use Rattle.relayout.specs.Reach as reach;

use crate::sizes::Containing;
use crate::styled::ContainedStyle;
use box_gen::BoxNode;
use fragment_types::Constraint;
use para_prepare::Prepared;

/// A box in its containing block: what that is to it, and its sizes; the box itself, and the prepared text of the paragraph that it
/// holds, if it holds one.
#[derive(Clone, Copy)]
pub(crate) struct FlowBox<'a> {
    pub(crate) containing: Containing,
    pub(crate) c: Constraint,
    pub(crate) node: &'a BoxNode,
    pub(crate) text: Option<&'a Prepared>,

    ghost bounded: { IsBounded node.now.style } by { IsBounded-prop node.now.style },
    ghost within: { reach.IsBounded c } by { Prim.hlevel props },
    ghost ready: { IsReadyIn (content_of node.now.content) (option_copied text) } by { IsReadyIn-prop (content_of node.now.content) (option_copied text) },
}

impl<'a> FlowBox<'a> {
    ghost use Rattle.std.specs.Prelude.{◌≡◌};

    /// Its style in its containing block.
    pub(crate) fn contained_style(&self) -> ContainedStyle<'a>
        ensures containing { result.containing ≡ self.now.containing }
        ensures style { result.style.now ≡ self.now.node.now.style }
        ensures sizes { result.c ≡ self.now.c }
    {
        ContainedStyle {
            containing: self.containing,
            style: &self.node.style,
            c: self.c,
        }
    }
}
