//! What a line can still reach from a place on, told by two lengths. Edges may come to less than 0, so that a line that
//! doesn't fit up to some place may fit up to a later one.

ghost use Rattle.std.specs.Prelude.{◌≡◌, ◌≤◌, ◌<◌, ◌^◌, length, IfOk, unsigned_abs};
ghost use Rattle.line_fill.specs.Ahead.{AreAhead, IsNearAhead, Within, with_end, behind, lesser, moved, is_within, break_at};
ghost use Rattle.line_fill.specs.Sums.{StandFor};

use crate::FillItem;
use crate::sums::{Place, Sums};
use fragment_types::Breaking;
use std::alloc::{AllocError, Global};

// What lies ahead of a place up to the next forced break. An end of lines is one of the places where the break is
// allowed or forced.
#[derive(Clone, Copy)]
pub(crate) struct Ahead {
    // The least sum of edges before an end with spaces alone between here and there.
    pub(crate) spaces: Option<i64>,
    // The least sum of edges and advances before another end, without the spaces that hang there.
    pub(crate) content: Option<i64>,
}

// What lies ahead of each place, the last one first.
pub(crate) fn all_ahead(
    alloc: Global,
    items: &[FillItem],
    sums: &Sums,
) -> Result<Vec<Ahead>, AllocError>
    requires { StandFor items.now sums.now }
    ensures { IfOk result (λ aheads. AreAhead items.now aheads.items) }
{
    let mut aheads = Vec::with_capacity(alloc, items.len() + 1)?;
    let mut ahead = Ahead {
        spaces: None,
        content: None,
    };
    aheads.push(ahead)?;
    let mut place = items.len();
    while place > 0 {
        let next = sums.place(place);
        place -= 1;
        ahead = ahead
            .with_end(break_behind(items, place), next.edges)
            .behind(items[place].space, next.advances);
        aheads.push(ahead)?;
    }
    Ok(aheads)
}

/// Whether a line ends behind an item. The text ends with a forced break.
pub(crate) fn break_behind(items: &[FillItem], place: usize) -> Breaking
    requires { place < length items.now }
    ensures { result ≡ break_at items.now place }
{
    if place + 1 == items.len() {
        Breaking::Must
    } else {
        items[place].end
    }
}

impl Ahead {
    // With the place itself as an end, before which there are these edges.
    fn with_end(self, end: Breaking, edges: i64) -> Ahead
        requires near { IsNearAhead self }
        requires edges { unsigned_abs edges ≤ 2 ^ 60 }
        ensures value { result ≡ with_end self end edges }
        ensures near { IsNearAhead result }
    {
        match end {
            Breaking::No => self,
            Breaking::May => Ahead {
                spaces: lesser(self.spaces, Some(edges)),
                ..self
            },
            Breaking::Must => Ahead {
                spaces: Some(edges),
                content: None,
            },
        }
    }

    // One item further to the left. Before the place behind it, items advance by so much.
    fn behind(self, space: bool, advances: i64) -> Ahead
        requires near { IsNearAhead self }
        requires advances { unsigned_abs advances ≤ 2 ^ 60 }
        ensures value { result ≡ behind self space advances }
        ensures near { IsNearAhead result }
    {
        if space {
            self
        } else {
            Ahead {
                spaces: None,
                content: lesser(self.content, moved(self.spaces, advances)),
            }
        }
    }
}

fn lesser(one: Option<i64>, other: Option<i64>) -> Option<i64>
    ensures { result ≡ lesser one other }
{
    match (one, other) {
        (None, _) => other,
        (_, None) => one,
        (Some(a), Some(b)) => Some(a.min(b)),
    }
}

fn moved(length: Option<i64>, by: i64) -> Option<i64>
    requires length { Within (2 ^ 60) length }
    requires by { unsigned_abs by ≤ 2 ^ 60 }
    ensures { result ≡ moved length by }
{
    match length {
        None => None,
        Some(z) => Some(z + by),
    }
}

// Whether a line is not wider than the room where its start is so far from where lengths are counted.
pub(crate) fn is_within(length: Option<i64>, start: i64, available: i64) -> bool
    requires length { Within (2 ^ 61) length }
    requires start { unsigned_abs start ≤ 2 ^ 61 }
    ensures { result ≡ is_within length start available }
{
    match length {
        None => false,
        Some(z) => z - start <= available,
    }
}
