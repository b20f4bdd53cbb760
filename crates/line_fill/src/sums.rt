//! Sums over the items of a paragraph, which tell the width of any piece of it (CSS Text 3, 4.1).

ghost use Rattle.std.specs.Prelude.{◌≡◌, ◌+◌, ◌≤◌, ◌<◌, ◌^◌, length, IfOk, List, max, take, unsigned_abs, ◌+ℤ◌};
ghost use Rattle.line_fill.specs.declared.item.FillItem.{FillItem};
ghost use Rattle.line_fill.specs.Item.{spread, lengths_of, width, solid};
ghost use Rattle.line_fill.specs.Sums.{StandFor, place_before, place_after, width_between};

use crate::FillItem;
use std::alloc::{AllocError, Global};
use std::marker::Model;

// What a place tells of the items before it.
#[derive(Clone, Copy)]
pub(crate) struct Place {
    // The edges of boxes in them.
    pub(crate) edges: i64,
    // What they advance by.
    pub(crate) advances: i64,
    // How many there are up to the last that is no space.
    pub(crate) solid: usize,
}

/// Sums over the items of a paragraph, one for each place between them.
#[derive(Drop)]
pub struct Sums {
    places: Vec<Place>,
}

impl Model for Sums {
    ghost use Rattle.std.specs.Prelude.{List};
    ghost use Rattle.line_fill.specs.Sums.{AreNear};
    ghost use Rattle.line_fill.specs.declared.sums.Place.{Place};

    ghost Value = { List Place };

    ghost view = { λ s. s.places.items };

    ghost invariant = { λ s. AreNear s.places.items };
}

impl Sums {
    /// The sums of a paragraph, of which all lengths, without their signs, come to at most 2^60.
    #[inline(never)]
    pub fn new(alloc: Global, items: &[FillItem]) -> Result<Sums, AllocError>
        requires { spread items.now ≤ 2 ^ 60 }
        ensures { IfOk result (λ sums. StandFor items.now sums) }
    {
        let mut places = Vec::with_capacity(alloc, items.len() + 1)?;
        let mut place = Place::first();
        places.push(place)?;
        for item in items {
            place = place.after(*item, places.len());
            places.push(place)?;
        }
        Ok(Sums { places })
    }

    /// How wide a piece of the paragraph is, from one place up to another: its edges and advances, without the advances of
    /// the spaces at its end (CSS Text 3, 4.1).
    pub fn width(&self, from: usize, to: usize) -> i64
        requires order { from ≤ to }
        requires within { to < length self.now }
        ensures width { (items : List FillItem) → StandFor items self.now → result ≡ width items from to }
        ensures near { (items : List FillItem) → StandFor items self.now → unsigned_abs result ≤ spread items }
    {
        let start = self.place(from);
        let end = self.place(to);
        start.width(end, self.content_end(from, to))
    }

    // Where the content of a piece ends, from one place up to another: at its start where it is spaces alone.
    pub(crate) fn content_end(&self, from: usize, to: usize) -> Place
        requires order { from ≤ to }
        requires within { to < length self.now }
        ensures value { (items : List FillItem) → StandFor items self.now → result ≡ place_before items (max from (solid (take to items))) }
        ensures near { unsigned_abs result.edges + unsigned_abs result.advances ≤ 2 ^ 60 }
    {
        let end = self.place(to);
        self.place(from.max(end.solid))
    }

    pub(crate) fn place(&self, place: usize) -> Place
        requires { place < length self.now }
        ensures value { (items : List FillItem) → StandFor items self.now → result ≡ place_before items place }
        ensures near { unsigned_abs result.edges + unsigned_abs result.advances ≤ 2 ^ 60 }
        ensures solid { result.solid ≤ place }
    {
        self.places[place]
    }
}

impl Place {
    // The place before all items.
    pub(crate) fn first() -> Place
        ensures { (items : List FillItem) → result ≡ place_before items 0 }
    {
        Place {
            edges: 0,
            advances: 0,
            solid: 0,
        }
    }

    // The next place, with one item more before it.
    pub(crate) fn after(self, item: FillItem, count: usize) -> Place
        requires { unsigned_abs self.edges + unsigned_abs self.advances + lengths_of item ≤ 2 ^ 60 }
        ensures { result ≡ place_after self item count }
    {
        Place {
            edges: self.edges + (item.before + item.after),
            advances: self.advances + item.advance,
            solid: if item.space { self.solid } else { count },
        }
    }

    // The edges and advances before it.
    pub(crate) fn total(self) -> i64
        requires { unsigned_abs self.edges + unsigned_abs self.advances ≤ 2 ^ 60 }
        ensures value { result ≡ self.edges +ℤ self.advances }
        ensures near { unsigned_abs result ≤ 2 ^ 60 }
    {
        self.edges + self.advances
    }

    // How wide the piece is from here to another place, where its content ends at a third.
    pub(crate) fn width(self, end: Place, content: Place) -> i64
        requires start { unsigned_abs self.edges + unsigned_abs self.advances ≤ 2 ^ 60 }
        requires end { unsigned_abs end.edges ≤ 2 ^ 60 }
        requires content { unsigned_abs content.advances ≤ 2 ^ 60 }
        ensures { result ≡ width_between self end content }
    {
        (end.edges - self.edges) + (content.advances - self.advances)
    }
}
