//! Where the items of a paragraph are read from.

ghost use Rattle.std.specs.Prelude.{◌≡◌, ◌<◌, true, List, length, slice_index_or};
ghost use Rattle.std.specs.List.{All};
ghost use Rattle.line_fill.specs.declared.item.FillItem.{FillItem};
ghost use Rattle.line_fill.specs.Forward.{IsForward};

use crate::FillItem;

/// Items of a paragraph in order, which are read one at a time.
pub trait FillSource {
    /// All of them.
    ghost items: { Self → List FillItem };

    /// How many there are.
    fn count(&self) -> usize
        ensures { result ≡ length (items self.now) };

    /// The item at a place.
    fn item(&self, place: usize) -> FillItem
        requires { place < length (items self.now) }
        ensures { (d : FillItem) → result ≡ slice_index_or (items self.now) place d };

    /// Whether it is known, without a look at each item, that no length is below 0.
    fn goes_forward(&self) -> bool
        ensures { result ≡ true → All IsForward (items self.now) };
}

/// Items in a list.
#[derive(Clone, Copy, Debug)]
pub(crate) struct Listed<'a> {
    pub(crate) items: &'a [FillItem],
}

impl FillSource for Listed<'_> {
    ghost items = { λ listed. listed.items.now };

    #[inline(always)]
    fn count(&self) -> usize {
        self.items.len()
    }

    #[inline(always)]
    fn item(&self, place: usize) -> FillItem {
        self.items[place]
    }

    #[inline(always)]
    fn goes_forward(&self) -> bool {
        false
    }
}
