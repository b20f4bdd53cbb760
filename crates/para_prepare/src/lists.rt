//! The items of a paragraph as they come, each at level 0 (UAX 9).

ghost use Rattle.std.specs.Prelude.{All};
ghost use Rattle.para_prepare.specs.Facts.{all_bounded-prop};
ghost use Rattle.para_prepare.specs.Preparation.{HasBounds};

use crate::breaks::BreakClasses;
use crate::item::PreparedItems;
use bidi_explicit::ClassList;

/// The items of a paragraph so far, each at level 0, with their classes for L1 and their break classes; and whether nothing
/// so far asks for another level. The lengths of the items are within their bounds.
#[derive(Drop)]
pub(crate) struct FlatLists<'a> {
    pub(crate) items: PreparedItems,
    pub(crate) classes: ClassList,
    pub(crate) breaks: BreakClasses<'a>,
    pub(crate) flat: bool,
    /// Whether each part so far is an item that is one character of the bidi paragraph.
    pub(crate) bare: bool,

    ghost bounds: { All (λ own. HasBounds own.what) items.items } by { all_bounded-prop items.items },
}
