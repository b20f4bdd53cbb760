//! Lines of items whose lengths are not below 0. No piece is narrower than a shorter one that begins with it, so a line goes on
//! up to the first end that it doesn't reach (CSS Text 3, 5.1).

ghost use Rattle.std.specs.Prelude.{◌≡◌, ◌+◌, ◌<◌, ◌≤◌, ◌^◌, int_le, length, slice_index_or, true, unsigned_abs};
ghost use Rattle.std.specs.List.{All};
ghost use Rattle.line_fill.specs.Ahead.{break_at};
ghost use Rattle.line_fill.specs.declared.item.FillItem.{FillItem};
ghost use Rattle.line_fill.specs.Forward.{EndsLine, IsForward, IsNearPiece, last_or, piece_after, piece_at};
ghost use Rattle.line_fill.specs.Item.{lengths_of, spread};
ghost use Rattle.line_fill.specs.Sums.{place_before, width_between};

use crate::FillItem;
use crate::sizes::{is_allowed, is_forced};
use crate::source::FillSource;
use crate::sums::Place;
use fragment_types::Breaking;

/// Whether no length is below 0. The items are looked at where their source doesn't know it.
#[inline(never)]
pub(crate) fn are_forward<S: FillSource>(source: &S) -> bool
    ensures { result ≡ true → All IsForward (S.items source.now) }
{
    if source.goes_forward() {
        return true;
    }
    for place in 0..source.count() {
        if !is_forward(source.item(place)) {
            return false;
        }
    }
    true
}

fn is_forward(item: FillItem) -> bool
    ensures { result ≡ true → IsForward item }
{
    item.advance >= 0 && item.before >= 0 && item.after >= 0
}

/// An end of a line, and what the place there tells of the items before it.
#[derive(Clone, Copy)]
pub(crate) struct Stop {
    pub(crate) end: usize,
    pub(crate) place: Place,
}

/// Where the line ends that begins at a place, which tells this of the items before it.
#[inline(never)]
pub(crate) fn forward_end<S: FillSource>(
    source: &S,
    from: usize,
    start: Place,
    available: i64,
) -> Stop
    requires forward { All IsForward (S.items source.now) }
    requires room { spread (S.items source.now) ≤ 2 ^ 60 }
    requires from { from < length (S.items source.now) }
    requires start { start ≡ place_before (S.items source.now) from }
    ensures { EndsLine available (S.items source.now) from result }
{
    let mut last = None;
    let mut piece = Piece::from(start);
    for place in from..source.count() {
        let own = source.item(place);
        piece = piece.after(own, place + 1);
        let end = break_behind(source, place, own);
        if is_allowed(end) {
            let stop = piece.stop(place + 1);
            if !piece.fits(available) {
                return last_or(last, stop);
            }
            if is_forced(end) {
                return stop;
            }
            last = Some(stop);
        }
    }
    piece.stop(source.count())
}

// Whether a line ends behind an item, which is the one at this place. The text ends with a forced break.
#[inline(always)]
fn break_behind<S: FillSource>(source: &S, place: usize, item: FillItem) -> Breaking
    requires place { place < length (S.items source.now) }
    requires item { (d : FillItem) → item ≡ slice_index_or (S.items source.now) place d }
    ensures { result ≡ break_at (S.items source.now) place }
{
    if source.count() == place + 1 {
        Breaking::Must
    } else {
        item.end
    }
}

// A piece of a paragraph, by its start, its end, and the place behind its last item that is no space, or its start where there
// is none.
#[derive(Clone, Copy)]
struct Piece {
    start: Place,
    end: Place,
    content: Place,
}

impl Piece {
    // No item from this place on.
    fn from(start: Place) -> Piece
        ensures { result ≡ piece_at start }
    {
        Piece {
            start,
            end: start,
            content: start,
        }
    }

    // With one item more, which is the one of this number.
    fn after(self, item: FillItem, count: usize) -> Piece
        requires { unsigned_abs self.end.edges + unsigned_abs self.end.advances + lengths_of item ≤ 2 ^ 60 }
        ensures { result ≡ piece_after self item count }
    {
        let end = self.end.after(item, count);
        Piece {
            start: self.start,
            end,
            content: if item.space { self.content } else { end },
        }
    }

    // Whether it is not wider than this.
    fn fits(self, available: i64) -> bool
        requires { IsNearPiece self }
        ensures { result ≡ int_le (width_between self.start self.end self.content) available }
    {
        self.start.width(self.end, self.content) <= available
    }

    // A line may end behind it, at this place.
    fn stop(self, end: usize) -> Stop
        ensures end { result.end ≡ end }
        ensures place { result.place ≡ self.end }
    {
        Stop {
            end,
            place: self.end,
        }
    }
}

// The last end that fits, else the first.
fn last_or(last: Option<Stop>, first: Stop) -> Stop
    ensures { result ≡ last_or last first }
{
    match last {
        Some(end) => end,
        None => first,
    }
}
