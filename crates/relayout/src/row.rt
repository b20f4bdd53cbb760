//! Boxes of an arena that stand side by side in a containing block, and what a page gives to all of them.

ghost use Rattle.std.specs.Prelude.{◌≡◌, ◌<◌};
ghost use Rattle.relayout.specs.Row as rule;

use crate::inline::PageView;
use crate::sizes::Containing;
use crate::sizing::Sizing;
use box_arena::BoxKey;
use face_api::Faces;
use fragment_types::Constraint;

/// What a page gives to its boxes: the view, and the faces by which their text is measured.
#[derive(Clone, Copy)]
pub(crate) struct Page<'f> {
    pub(crate) view: PageView,
    pub(crate) faces: &'f Faces,
}

/// The boxes from one on that stand side by side in a containing block: what that is to them, and its sizes. At most `depth` of
/// them and of the boxes inside them stand one inside the other.
#[derive(Clone, Copy, Debug, PartialEq, Eq)]
pub(crate) struct Row {
    pub(crate) from: Option<BoxKey>,
    pub(crate) containing: Containing,
    pub(crate) c: Constraint,
    pub(crate) depth: u32,
}

/// One box of a row.
#[derive(Clone, Copy, Debug, PartialEq, Eq)]
pub(crate) struct RowBox {
    pub(crate) key: BoxKey,
    pub(crate) containing: Containing,
    pub(crate) c: Constraint,
    pub(crate) depth: u32,
}

impl Row {
    /// The box of this row under a key.
    pub(crate) fn at(&self, key: BoxKey) -> RowBox
        ensures { result ≡ rule.box_in self.now key }
    {
        RowBox {
            key,
            containing: self.containing,
            c: self.c,
            depth: self.depth,
        }
    }
}

impl RowBox {
    /// Its children from one on, under this inline size of its content area, where that is known.
    pub(crate) fn children(&self, sizing: &Sizing, from: Option<BoxKey>, size: Option<i64>) -> Row
        requires { 0 < self.now.depth }
        ensures { result ≡ rule.row_in self.now sizing.now from size }
    {
        Row {
            from,
            containing: sizing.own,
            c: sizing.under(size),
            depth: self.depth - 1,
        }
    }
}
