//! The lines of a paragraph (CSS Text 3, 5.1).

ghost use Rattle.std.specs.Prelude.{◌≡◌, ◌+◌, ◌≤◌, ◌<◌, ◌^◌, length, IfOk};
ghost use Rattle.std.specs.List.{All, list_any};
ghost use Rattle.line_fill.specs.Item.{spread};
ghost use Rattle.line_fill.specs.Ahead.{AreAhead};
ghost use Rattle.line_fill.specs.Filling.{lines, line_end, ends, fits, Divide};
ghost use Rattle.line_fill.specs.Forward.{IsForward};
ghost use Rattle.line_fill.specs.Sums.{StandFor};

use crate::FillItem;
use crate::ahead::{Ahead, all_ahead, is_within};
use crate::forward::{Stop, are_forward, forward_end};
use crate::source::{FillSource, Listed};
use crate::sums::{Place, Sums};
use fragment_types::Breaking;
use std::alloc::{AllocError, Global};
use std::marker::Model;
use std::sync::ledger::Ledger;
use wm_units::Steps;

/// Where the lines of a paragraph end.
#[derive(Drop)]
pub struct Lines {
    ends: Vec<usize>,
}

impl Model for Lines {
    ghost use Rattle.std.specs.Prelude.{List, ℕ};

    ghost Value = { List ℕ };

    ghost view = { λ lines. lines.ends.items };
}

impl Lines {
    /// The place behind the last item of each line.
    pub fn ends(&self) -> &[usize]
        ensures { result.now ≡ self.now }
    {
        &self.ends
    }
}

/// The lines of a paragraph in so much room, in units of 1/64 px (CSS Text 3, 5.1), and counts one step. A line ends at the
/// last place where a break is allowed and up to which it fits, else at the first where one is allowed, and never
/// behind a forced break. All lengths, without their signs, come to at most 2^60. Each item is looked at four times at most,
/// whatever the lengths are.
pub fn fill<M: Ledger>(
    alloc: Global,
    items: &[FillItem],
    available: i64,
    arranged: &mut Steps<M>,
) -> Result<Lines, AllocError>
    requires { spread items.now ≤ 2 ^ 60 }
    ensures ticks { arranged.new ≡ arranged.old + 1 }
    ensures lines { IfOk result (λ found. found ≡ lines available items.now) }
    ensures divide { IfOk result (λ found. Divide 0 (length items.now) found) }
{
    let lines = fill_from(alloc, &Listed { items }, available, arranged)?;
    Ok(lines)
}

/// The lines of a paragraph in so much room, in units of 1/64 px (CSS Text 3, 5.1), from items that are read one at a
/// time, and counts one step. The items are copied into a list only where some length is below 0.
pub fn fill_from<S: FillSource, M: Ledger>(
    alloc: Global,
    source: &S,
    available: i64,
    arranged: &mut Steps<M>,
) -> Result<Lines, AllocError>
    requires { spread (S.items source.now) ≤ 2 ^ 60 }
    ensures ticks { arranged.new ≡ arranged.old + 1 }
    ensures lines { IfOk result (λ found. found ≡ lines available (S.items source.now)) }
    ensures divide { IfOk result (λ found. Divide 0 (length (S.items source.now)) found) }
{
    arranged.tick();
    if are_forward(source) {
        let lines = forward_lines(alloc, source, available)?;
        Ok(lines)
    } else {
        let items = listed(alloc, source)?;
        let lines = other_lines(alloc, &items, available)?;
        Ok(lines)
    }
}

// The items of a source as a list.
fn listed<S: FillSource>(alloc: Global, source: &S) -> Result<Vec<FillItem>, AllocError>
    ensures { IfOk result (λ made. made.items ≡ S.items source.now) }
{
    let mut made = Vec::with_capacity(alloc, source.count())?;
    for place in 0..source.count() {
        made.push(source.item(place))?;
    }
    Ok(made)
}

// The lines of any items.
fn other_lines(alloc: Global, items: &[FillItem], available: i64) -> Result<Lines, AllocError>
    requires { spread items.now ≤ 2 ^ 60 }
    ensures lines { IfOk result (λ found. found ≡ lines available items.now) }
    ensures divide { IfOk result (λ found. Divide 0 (length items.now) found) }
{
    let sums = Sums::new(alloc, items)?;
    let aheads = all_ahead(alloc, items, &sums)?;
    let lines = lines_of(alloc, items, &Reach { sums, aheads }, available)?;
    Ok(lines)
}

// The lines of items whose lengths are not below 0.
fn forward_lines<S: FillSource>(
    alloc: Global,
    source: &S,
    available: i64,
) -> Result<Lines, AllocError>
    requires forward { All IsForward (S.items source.now) }
    requires room { spread (S.items source.now) ≤ 2 ^ 60 }
    ensures lines { IfOk result (λ found. found ≡ lines available (S.items source.now)) }
    ensures divide { IfOk result (λ found. Divide 0 (length (S.items source.now)) found) }
{
    let mut ends = Vec::new(alloc);
    let mut stop = Stop {
        end: 0,
        place: Place::first(),
    };
    while stop.end < source.count() {
        stop = forward_end(source, stop.end, stop.place, available);
        ends.push(stop.end)?;
    }
    Ok(Lines { ends })
}

// The lines by what lies ahead of each place.
fn lines_of(
    alloc: Global,
    items: &[FillItem],
    reach: &Reach,
    available: i64,
) -> Result<Lines, AllocError>
    requires sums { StandFor items.now reach.now.sums }
    requires aheads { AreAhead items.now reach.now.aheads.items }
    ensures lines { IfOk result (λ found. found ≡ lines available items.now) }
    ensures divide { IfOk result (λ found. Divide 0 (length items.now) found) }
{
    let mut ends = Vec::new(alloc);
    let mut from = 0;
    while from < items.len() {
        from = reach.line_end(items, from, available);
        ends.push(from)?;
    }
    Ok(Lines { ends })
}

// How far lines of a paragraph can reach.
#[derive(Drop)]
struct Reach {
    sums: Sums,
    // What lies ahead of each place, the last one first.
    aheads: Vec<Ahead>,
}

impl Reach {
    // Where the line ends that begins at a place. It goes on from break to break as long as it fits up to some later one.
    fn line_end(&self, items: &[FillItem], from: usize, available: i64) -> usize
        requires sums { StandFor items.now self.now.sums }
        requires aheads { AreAhead items.now self.now.aheads.items }
        requires from { from < length items.now }
        ensures value { result ≡ line_end available items.now from }
        ensures later { from < result }
        ensures within { result ≤ length items.now }
    {
        for place in from..items.len() {
            match items[place].end {
                Breaking::No => {}
                Breaking::May => {
                    if !self.goes_on(items, from, place + 1, available) {
                        return place + 1;
                    }
                }
                Breaking::Must => return place + 1,
            }
        }
        items.len()
    }

    // Whether a line fits up to some end behind this place.
    fn goes_on(&self, items: &[FillItem], from: usize, place: usize, available: i64) -> bool
        requires sums { StandFor items.now self.now.sums }
        requires aheads { AreAhead items.now self.now.aheads.items }
        requires order { from ≤ place }
        requires within { place ≤ length items.now }
        ensures { result ≡ list_any (fits available items.now from) (ends items.now place) }
    {
        let ahead = self.aheads[items.len() - place];
        let total = self.sums.place(from).total();
        is_within(ahead.content, total, available)
            || {
                let content = self.sums.content_end(from, place);
                is_within(ahead.spaces, total - content.advances, available)
            }
    }
}
