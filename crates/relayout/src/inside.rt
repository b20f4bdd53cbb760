//! What stands inside a box, on the way to its layout.

ghost use Rattle.std.specs.Prelude.{◌≤◌, ◌^◌, All, Some, length};
ghost use Rattle.std.proofs.Props.{props};
ghost use Rattle.fragment_types.specs.Item.{entries_of};
ghost use Rattle.para_prepare.specs.Preparation.{atoms_of};
ghost use Rattle.relayout.specs.Near.{IsNearLaid};
ghost use Rattle.relayout.specs.Paragraph.{IsParagraph, IsReady};
ghost use Rattle.relayout.specs.Props.{AreNear-prop, IsNearLaid-prop, IsParagraph-prop, IsReady-prop};
ghost use Rattle.relayout.specs.Reach.{IsBase, IsContribution};

use crate::flowed::LaidBox;
use crate::styled::BasedStyle;
use fragment_types::Item;
use line_fill::Intrinsic;
use para_prepare::Prepared;
use style_types::Style;

/// The boxes inside another, laid out.
#[derive(Clone, Copy)]
pub(crate) struct LaidInside<'a> {
    pub(crate) boxes: &'a [LaidBox],

    ghost near: { All IsNearLaid boxes.now } by { AreNear-prop boxes.now },
    ghost few: { length boxes.now ≤ 2 ^ 18 },
}

/// An inline-block, laid out, in lines of this inline size.
#[derive(Clone, Copy)]
pub(crate) struct LaidAtom<'a> {
    pub(crate) laid: &'a LaidBox,
    pub(crate) size: i64,

    ghost near: { IsNearLaid laid.now } by { IsNearLaid-prop laid.now },
    ghost within: { IsBase (Some size) } by { Prim.hlevel props },
}

/// The min-content and max-content contributions of the boxes inside another.
#[derive(Clone, Copy)]
pub(crate) struct Contributions<'a> {
    pub(crate) sizes: &'a [Intrinsic],

    ghost near: { All IsContribution sizes.now } by { Prim.hlevel props },
    ghost few: { length sizes.now ≤ 2 ^ 20 },
}

/// The paragraph that a block container of this style holds.
#[derive(Clone, Copy)]
pub(crate) struct HeldParagraph<'a> {
    pub(crate) style: &'a Style,
    pub(crate) items: &'a [Item],

    ghost paragraph: { IsParagraph (entries_of items.now) } by { IsParagraph-prop (entries_of items.now) },
}

/// A paragraph, and its prepared text.
#[derive(Clone, Copy)]
pub(crate) struct PreparedParagraph<'a> {
    pub(crate) items: &'a [Item],
    pub(crate) text: &'a Prepared,

    ghost paragraph: { IsParagraph (entries_of items.now) } by { IsParagraph-prop (entries_of items.now) },
    ghost ready: { IsReady (entries_of items.now) text.now } by { IsReady-prop (entries_of items.now) text.now },
}

/// A paragraph with its inline-blocks, laid out.
#[derive(Clone, Copy)]
pub(crate) struct LaidParagraph<'a, 'b> {
    pub(crate) own: PreparedParagraph<'a>,
    pub(crate) inside: LaidInside<'b>,

    ghost atoms: { atoms_of (entries_of own.items.now) ≤ length inside.boxes.now },
}

impl<'a> LaidAtom<'a> {
    ghost use Rattle.std.specs.Prelude.{◌≡◌};

    /// Its style, where percentages refer to the inline size of the lines.
    pub(crate) fn based_style(&self) -> BasedStyle<'a>
        ensures style { result.style.now ≡ self.now.laid.now.style }
        ensures base { result.base ≡ Some self.now.size }
    {
        BasedStyle {
            style: &self.laid.style,
            base: Some(self.size),
        }
    }
}
