//! The order of a line by its levels (UAX 9, 3.4, L2).

ghost use Rattle.std.specs.Prelude.{◌≡◌, ◌+◌, ◌-◌, ◌%◌, ◌<◌, ◌≤◌, ◌++◌, [], cond, eqb, leb, ltb, length, take, drop, reverse, slice_index, IfOk, IsPermutation};
ghost use Rattle.std.specs.List.{All, range_with_len};
ghost use Rattle.bidi_order.specs.Reversals.{IsLineAt, reverse_runs, greatest, greatest_below, least_odd, from_least_odd, order};

use crate::blocks::reverse_by_blocks;
use crate::places::Order;
use std::alloc::{AllocError, Global};

/// The greatest level in a line without embeddings, overrides and isolates, whose base level is 0 or 1.
const FLAT: u8 = 2;

/// The levels of a line, and a level that its characters may reach.
#[derive(Clone, Copy)]
pub(crate) struct Reach<'a> {
    pub(crate) levels: &'a [u8],
    pub(crate) level: u8,
}

/// The places of a line's characters in the order in which they stand from left to right, by their levels (UAX 9,
/// L2).
#[tactic(auto, using(basic_laws::proofs::Lists::range_below), unfolding(crate::specs::Reversals::order))]
pub fn order(alloc: Global, levels: &[u8]) -> Result<Order, AllocError>
    ensures order { IfOk result (λ places. places.items ≡ order levels.now) }
    ensures rearranged { IfOk result (λ places. IsPermutation (range_with_len 0 (length levels.now)) places.items) }
    ensures below { IfOk result (λ places. All (λ p. p < length levels.now) places.items) }
    ensures length { IfOk result (λ places. length places.items ≡ length levels.now) }
{
    let mut places = all_places(alloc, levels.len())?;
    reverse_places(&mut places, levels);
    Ok(places)
}

/// So many places in their own order.
pub(crate) fn all_places(alloc: Global, n: usize) -> Result<Order, AllocError>
    ensures { IfOk result (λ places. places.items ≡ range_with_len 0 n) }
{
    let mut places = vec![in alloc; 0; n]?;
    for place in 0..n {
        places[place] = place;
    }
    Ok(places)
}

/// The greatest of these levels, or 0.
pub(crate) fn greatest(levels: &[u8]) -> u8
    ensures { result ≡ greatest levels.now }
{
    let mut best = 0;
    for level in levels {
        best = best.max(*level);
    }
    best
}

// The reversals from the greatest level down to the least odd one, of places in their own order.
fn reverse_places(places: &mut Order, levels: &[u8])
    requires { places.old.items ≡ range_with_len 0 (length levels.now) }
    ensures reversed { places.new.items ≡ from_least_odd levels.now (least_odd levels.now) places.old.items }
    ensures rearranged { IsPermutation places.old.items places.new.items }
{
    reverse_levels(places, levels);
}

// The reversals from the greatest level down to 1, which come to those of L2. Those below the least odd level cancel
// each other, as two do between levels that characters have, since the same places reach both.
#[tactic(auto, using(crate::proofs::Levels::own_length, crate::proofs::Levels::own_places))]
fn reverse_levels(places: &mut [usize], levels: &[u8])
    requires { places.old ≡ range_with_len 0 (length levels.now) }
    ensures reversed { places.new ≡ from_least_odd levels.now (least_odd levels.now) places.old }
    ensures rearranged { IsPermutation places.old places.new }
{
    let mut level = greatest(levels);
    let deep = level > FLAT;
    while level > 0 {
        let next = greatest_below(levels, level);
        reverse_between(places, &Reach { levels, level }, next, deep);
        level = next;
    }
}

// The greatest level below that one, or 0.
fn greatest_below(levels: &[u8], limit: u8) -> u8
    ensures { result ≡ greatest_below limit levels.now }
{
    let mut best = 0;
    for level in levels {
        best = best.max(below(*level, limit));
    }
    best
}

// A level that is less than that one, else 0.
fn below(level: u8, limit: u8) -> u8
    ensures { result ≡ cond (ltb level limit) level 0 }
{
    if level < limit { level } else { 0 }
}

// The reversals from that level down to the next one, which is left out. In a deep line most places of a long part reach a
// level, or none does.
fn reverse_between(places: &mut [usize], reach: &Reach, next: u8, deep: bool)
    requires next { next < reach.now.level }
    requires line { IsLineAt reach.now.levels.now reach.now.level places.old }
    ensures reversed { places.new ≡ cond (eqb ((reach.now.level - next) % 2) 1) (reverse_runs (λ p. leb reach.now.level (slice_index reach.now.levels.now p)) [] places.old) places.old }
    ensures rearranged { IsPermutation places.old places.new }
{
    if (reach.level - next) % 2 == 1 {
        if deep {
            reverse_by_blocks(places, reach);
        } else {
            reverse_level(places, reach);
        }
    }
}

// Reverses each longest run of places that have this level or a higher one. They are where the line's own places have it.
fn reverse_level(places: &mut [usize], reach: &Reach)
    requires { IsLineAt reach.now.levels.now reach.now.level places.old }
    ensures reversed { places.new ≡ reverse_runs (λ p. leb reach.now.level (slice_index reach.now.levels.now p)) [] places.old }
    ensures rearranged { IsPermutation places.old places.new }
{
    let levels = reach.levels;
    let level = reach.level;
    let mut start = 0;
    for i in 0..places.len() {
        if !reaches(levels, i, level) {
            reverse_part(places, start, i);
            start = i + 1;
        }
    }
    let end = places.len();
    reverse_part(places, start, end);
}

/// Whether the character at this place of the line has the level or a higher one.
pub(crate) fn reaches(levels: &[u8], place: usize, level: u8) -> bool
    requires { place < length levels.now }
    ensures { result ≡ leb level (slice_index levels.now place) }
{
    level <= levels[place]
}

/// Reverses the places from `start` up to `end`. Most parts have no place or one.
#[inline(always)]
#[tactic(auto, using(crate::proofs::Runs::short_part))]
pub(crate) fn reverse_part(places: &mut [usize], start: usize, end: usize)
    requires start { start ≤ end }
    requires end { end ≤ length places.old }
    ensures { places.new ≡ take start places.old ++ reverse (take (end - start) (drop start places.old)) ++ drop end places.old }
{
    if end - start > 1 {
        places[start..end].reverse();
    }
}
