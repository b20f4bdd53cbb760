//! Where the items of a line are read from (CSS 2, 9.4.2).

ghost use Rattle.std.specs.Prelude.{◌≡◌, ◌<◌, ◌≤◌, ◌^◌, true, IfOk, IfSome, List, length, map, slice_index_or};
ghost use Rattle.std.specs.List.{All};
ghost use Rattle.line_place.specs.Line.{Item, item_of};
ghost use Rattle.line_place.specs.LineText.{IsLineText, text_of, unit_in};
ghost use Rattle.line_place.specs.Reach.{item_reach, total};
ghost use Rattle.line_place.specs.Runs.{stand_alike};

use crate::line::LineItem;
use crate::line_text::LineText;
use crate::runs::{stand_alike, unit_of};
use fragment_types::RunUnit;
use std::alloc::{AllocError, Global};
use wm_chars::BidiClass;

/// Items of a line in logical order, which are read one at a time, and some of them several times: what is asked of all of them
/// should cost a few steps.
pub trait LineSource {
    /// All of them.
    ghost items: { Self → List Item };

    /// How many there are.
    fn count(&self) -> usize
        ensures { result ≡ length (items self.now) };

    /// The item at a place.
    fn item(&self, place: usize) -> LineItem<'_>
        requires { place < length (items self.now) }
        ensures { (d : Item) → item_of result ≡ slice_index_or (items self.now) place d };

    /// Whether the items at two places are units of one text node and one form inside the same box, as the units of one run are.
    fn stand_alike(&self, place: usize, other: usize) -> bool
        requires place { place < length (items self.now) }
        requires other { other < length (items self.now) }
        ensures { (d : Item) → result ≡ stand_alike (slice_index_or (items self.now) place d) (slice_index_or (items self.now) other d) };

    /// What the item at a place shows as a unit of its run, with its whole extent. What isn't text shows nothing.
    #[inline(always)]
    fn unit(&self, alloc: Global, place: usize) -> Result<RunUnit, AllocError>
        requires { place < length (items self.now) }
        ensures { (d : Item) → IfOk result (λ made. made ≡ unit_in (slice_index_or (items self.now) place d)) }
    {
        unit_of(alloc, &self.item(place))
    }

    /// The levels of all of them, where it has them in a list. One that hasn't may say none.
    fn levels(&self) -> Option<&[u8]>
        ensures { IfSome result (λ levels. levels.now ≡ map (λ item. item.level) (items self.now)) }
    {
        None
    }

    /// The classes of all of them, where it has them in a list. One that hasn't may say none.
    fn classes(&self) -> Option<&[BidiClass]>
        ensures { IfSome result (λ classes. classes.now ≡ map (λ item. item.class) (items self.now)) }
    {
        None
    }

    /// Whether each of them has level 0. A source that doesn't know may say no.
    fn is_level_zero(&self) -> bool
        ensures { result ≡ true → All (λ item. item.level ≡ 0) (items self.now) };

    /// All of them as one run of text, where all, the Spaces at the end too, are units of one text node and one form outside all
    /// boxes at level 0, and not all are Spaces. A source that doesn't know may say that they aren't.
    fn text(&self, _alloc: Global) -> Result<Option<LineText>, AllocError>
        requires { total item_reach (items self.now) ≤ 2 ^ 60 }
        ensures { IfOk result (λ made. IfSome made (λ text. IsLineText (text_of text) (items self.now))) }
    {
        Ok(None)
    }
}

/// Items in a list.
#[derive(Clone, Copy, Debug)]
pub(crate) struct Listed<'a> {
    pub(crate) items: &'a [LineItem<'a>],
}

impl LineSource for Listed<'_> {
    ghost items = { λ listed. map item_of listed.items.now };

    #[inline(always)]
    fn count(&self) -> usize {
        self.items.len()
    }

    #[inline(always)]
    fn item(&self, place: usize) -> LineItem<'_> {
        self.items[place]
    }

    #[inline(always)]
    fn stand_alike(&self, place: usize, other: usize) -> bool {
        stand_alike(&self.items[place], &self.items[other])
    }

    fn is_level_zero(&self) -> bool {
        for item in self.items {
            if item.level != 0 {
                return false;
            }
        }
        true
    }
}
