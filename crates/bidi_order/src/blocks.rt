//! The reversals of a line at one level, many places at a time (UAX 9, 3.4, L2). In a line with embeddings most places of
//! a long part reach a level, or none does.

ghost use Rattle.std.specs.Prelude.{ℕ, ◌≡◌, ◌<◌, ◌≤◌, [], leb, length, List, slice_index, IsPermutation};
ghost use Rattle.std.specs.List.{list_all, list_any};
ghost use Rattle.bidi_order.specs.Reversals.{IsLineAt, IsReversingLine, reverse_runs};

use crate::reversals::{Reach, reaches, reverse_part};

// How many places a block has.
const BLOCK: usize = 32;

// The places of a line from `from` up to `end`, of which there is one at least, and the level that they may reach.
#[derive(Clone, Copy)]
struct Block<'a> {
    reach: Reach<'a>,
    from: usize,
    end: usize,
    ghost further: { from < end },
    ghost within: { end ≤ length reach.levels.now },
}

/// Reverses each longest run of places that have this level or a higher one. They are where the line's own places have it.
pub(crate) fn reverse_by_blocks(places: &mut [usize], reach: &Reach)
    requires { IsLineAt reach.now.levels.now reach.now.level places.old }
    ensures reversed { places.new ≡ reverse_runs (λ p. leb reach.now.level (slice_index reach.now.levels.now p)) [] places.old }
    ensures rearranged { IsPermutation places.old places.new }
{
    let mut start = 0;
    let mut from = 0;
    while from < reach.levels.len() {
        let block = Block {
            reach: *reach,
            from,
            end: block_end(from, reach.levels.len()),
        };
        start = reverse_block(places, &block, start);
        from = block.end;
    }
    reverse_part(places, start, from);
}

// Where the block ends that begins at a place.
fn block_end(from: usize, len: usize) -> usize
    requires { from < len }
    ensures further { from < result }
    ensures within { result ≤ len }
{
    if len - from <= BLOCK {
        len
    } else {
        from + BLOCK
    }
}

// Goes on over one block, and tells where the run begins that is read behind it.
fn reverse_block(places: &mut [usize], block: &Block, start: usize) -> usize
    requires length { length places.old ≡ length block.now.reach.levels.now }
    requires begun { start ≤ block.now.from }
    ensures { (line : List ℕ) → IsReversingLine block.now.reach.levels.now block.now.reach.level line places.old start block.now.from → IsReversingLine block.now.reach.levels.now block.now.reach.level line places.new result block.now.end }
{
    let levels = block.reach.levels;
    let level = block.reach.level;
    let own = &levels[block.from..block.end];
    if reaches(levels, block.from, level) {
        if all_reach(own, level) {
            return start;
        }
    } else if !any_reaches(own, level) {
        reverse_part(places, start, block.from);
        return block.end;
    }
    reverse_each(places, block, start)
}

// Goes on over one block place by place: reverses each run of this level or above that ends in it, and reports where
// the run begins that is read after the block.
fn reverse_each(places: &mut [usize], block: &Block, start: usize) -> usize
    requires length { length places.old ≡ length block.now.reach.levels.now }
    requires begun { start ≤ block.now.from }
    ensures { (line : List ℕ) → IsReversingLine block.now.reach.levels.now block.now.reach.level line places.old start block.now.from → IsReversingLine block.now.reach.levels.now block.now.reach.level line places.new result block.now.end }
{
    let levels = block.reach.levels;
    let level = block.reach.level;
    let mut start = start;
    for i in block.from..block.end {
        if !reaches(levels, i, level) {
            reverse_part(places, start, i);
            start = i + 1;
        }
    }
    start
}

// Both are asked for of a whole block without a stop: a compiler makes of such a loop one that looks at many levels at once.
#[inline(never)]
fn all_reach(levels: &[u8], level: u8) -> bool
    ensures { result ≡ list_all (leb level) levels.now }
{
    let mut all = true;
    for own in levels {
        all &= is_from(*own, level);
    }
    all
}

#[inline(never)]
fn any_reaches(levels: &[u8], level: u8) -> bool
    ensures { result ≡ list_any (leb level) levels.now }
{
    let mut any = false;
    for own in levels {
        any |= is_from(*own, level);
    }
    any
}

fn is_from(own: u8, level: u8) -> bool
    ensures { result ≡ leb level own }
{
    level <= own
}
