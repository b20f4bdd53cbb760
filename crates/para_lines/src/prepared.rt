//! What lines are told of a prepared paragraph.

ghost use Rattle.std.specs.Prelude.{◌≡◌, ◌<◌, length};

use fragment_types::Breaking;
use para_prepare::{Prepared, PreparedItem};
use wm_chars::BidiClass;

/// The items of a prepared paragraph, and for each its level, its class for L1 of UAX 9, the base level of its bidi paragraph
/// and whether a line may end behind it.
#[derive(Clone, Copy)]
pub(crate) struct PreparedLists<'a> {
    pub(crate) items: &'a [PreparedItem],
    pub(crate) levels: &'a [u8],
    pub(crate) classes: &'a [BidiClass],
    pub(crate) bases: &'a [u8],
    pub(crate) breaks: &'a [Breaking],

    ghost each_level: { length levels.now ≡ length items.now },
    ghost each_class: { length classes.now ≡ length items.now },
    ghost each_base: { length bases.now ≡ length items.now },
    ghost each_break: { length breaks.now ≡ length items.now },
}

impl<'a> PreparedLists<'a> {
    ghost use Rattle.std.specs.List.{slice_range};
    ghost use Rattle.std.specs.Prelude.{◌≤◌, ℕ, IfSome};
    ghost use Rattle.para_lines.specs.Prepared.{AreSources, preparation_of, source_before, source_behind};

    /// The lists of a prepared paragraph.
    pub(crate) fn of(prepared: &'a Prepared) -> PreparedLists<'a>
        ensures { preparation_of result ≡ prepared.now }
    {
        PreparedLists {
            items: prepared.items(),
            levels: prepared.levels(),
            classes: prepared.classes(),
            bases: prepared.bases(),
            breaks: prepared.breaks(),
        }
    }

    /// The lists of the items from one place up to another.
    pub(crate) fn between(&self, from: usize, end: usize) -> PreparedLists<'a>
        requires order { from ≤ end }
        requires within { end ≤ length self.now.items.now }
        ensures items { result.items.now ≡ slice_range self.now.items.now from end }
        ensures levels { result.levels.now ≡ slice_range self.now.levels.now from end }
        ensures classes { result.classes.now ≡ slice_range self.now.classes.now from end }
        ensures bases { result.bases.now ≡ slice_range self.now.bases.now from end }
        ensures breaks { result.breaks.now ≡ slice_range self.now.breaks.now from end }
    {
        let PreparedLists {
            items,
            levels,
            classes,
            bases,
            breaks,
        } = *self;
        PreparedLists {
            items: &items[from..end],
            levels: &levels[from..end],
            classes: &classes[from..end],
            bases: &bases[from..end],
            breaks: &breaks[from..end],
        }
    }

    /// The paragraph's item that the prepared one before this comes from.
    pub(crate) fn source_before(&self, place: usize) -> Option<usize>
        requires { place < length self.now.items.now }
        ensures is { result ≡ source_before self.now.items.now place }
        ensures within { (count : ℕ) → AreSources count self.now.items.now → IfSome result (λ source. source < count) }
    {
        if place == 0 {
            None
        } else {
            Some(self.items[place - 1].source as usize)
        }
    }

    /// The paragraph's item that the prepared one behind this comes from.
    pub(crate) fn source_behind(&self, place: usize) -> Option<usize>
        requires { place < length self.now.items.now }
        ensures is { result ≡ source_behind self.now.items.now place }
        ensures within { (count : ℕ) → AreSources count self.now.items.now → IfSome result (λ source. source < count) }
    {
        if place + 1 < self.items.len() {
            Some(self.items[place + 1].source as usize)
        } else {
            None
        }
    }
}
