//! The isolating run sequences of a paragraph, with sos and eos, and with all their places in one list (UAX 9, BD13 and
//! X10).

ghost use Rattle.std.specs.Prelude.{◌≡◌, ◌∷◌, ◌++◌, ◌<◌, ◌≤◌, [], length, map, max, IfOk, OnOk};
ghost use Rattle.std.specs.List.{All, concat};
ghost use Rattle.std.specs.List.Sorted.{IsPermutation};
ghost use Rattle.bidi_explicit.specs.Sequences.{HasOneLevel, IsRunOf, direction, isolating_runs, kept_places, last_of, level_in};
ghost use Rattle.bidi_explicit.specs.Explicit.{explicit_levels};
ghost use Rattle.bidi_explicit.specs.Paragraph.{AreAligned};
ghost use Rattle.bidi_explicit.specs.Links.{Follows, HasChain, IsLinkedWhole, before_at, begins_at, sequence_by};
ghost use Rattle.bidi_explicit.specs.Spans.{AreSpans, sequence_at, span_places};

use crate::links::{self, Link};
use crate::paragraph::{FlatRuns, Levels, PlaceList, RunSpan};
use std::alloc::{AllocError, Global};
use wm_chars::BidiClass;

/// The isolating run sequences of a paragraph with their sos and eos (UAX 9, BD13 and X10), in the order of their
/// first characters, with all their places in one list. The lists of the paragraph have one length. The places of each
/// sequence rise, and all of them together are the places of what isn't removed, each once. Where the levels are those
/// that X1 to X9 give, each sequence has one level.
pub fn flat_runs(alloc: Global, levels: &Levels) -> Result<FlatRuns, AllocError>
    requires { AreAligned levels.now }
    ensures runs { IfOk result (λ flat. map (sequence_at flat.places.items) flat.spans.items ≡ isolating_runs levels.now.base levels.now.level.items levels.now.original.items levels.now.removed.items) }
    ensures spans { IfOk result (λ flat. AreSpans flat.places.items flat.spans.items) }
    ensures cover { IfOk result (λ flat. IsPermutation (kept_places levels.now.removed.items) (concat (map (span_places flat.places.items) flat.spans.items))) }
    ensures each { IfOk result (λ flat. All (λ span. IsRunOf levels.now.removed.items (span_places flat.places.items span)) flat.spans.items) }
    ensures level { IfOk result (λ flat. levels.now.level.items ≡ explicit_levels levels.now.base levels.now.original.items → All (λ span. HasOneLevel levels.now.level.items (span_places flat.places.items span)) flat.spans.items) }
{
    let linked = links::linked_levels(alloc, levels)?;
    let flat = gather(alloc, levels, &linked.links)?;
    Ok(flat)
}

// The sequences that the links lead through.
fn gather(alloc: Global, levels: &Levels, links: &[Link]) -> Result<FlatRuns, AllocError>
    requires aligned { AreAligned levels.now }
    requires linked { IsLinkedWhole levels.now links.now }
    ensures runs { IfOk result (λ flat. map (sequence_at flat.places.items) flat.spans.items ≡ isolating_runs levels.now.base levels.now.level.items levels.now.original.items levels.now.removed.items) }
    ensures spans { IfOk result (λ flat. AreSpans flat.places.items flat.spans.items) }
{
    let mut flat = FlatRuns {
        places: Vec::with_capacity(alloc, links.len())?,
        spans: Vec::new(alloc),
    };
    for i in 0..links.len() {
        if links[i].begins {
            take(&mut flat, levels, links, i)?;
        }
    }
    Ok(flat)
}

// Takes the sequence that begins with the place.
fn take(
    flat: &mut FlatRuns,
    levels: &Levels,
    links: &[Link],
    first: usize,
) -> Result<(), AllocError>
    requires spans { AreSpans flat.old.places.items flat.old.spans.items }
    requires level { first < length levels.now.level.items }
    requires removed { first < length levels.now.removed.items }
    requires chain { HasChain links.now first }
    ensures spans { OnOk result (AreSpans flat.new.places.items flat.new.spans.items) }
    ensures taken { OnOk result ((places : _) → Follows links.now first places → map (sequence_at flat.new.places.items) flat.new.spans.items ≡ map (sequence_at flat.old.places.items) flat.old.spans.items ++ sequence_by (level_in levels.now.level.items) links.now first places (before_at levels.now first) ∷ []) }
{
    let start = flat.places.len();
    let last = take_places(&mut flat.places, links, first)?;
    let level = levels.level[first];
    let before = level_before(levels, first);
    flat.spans.push(RunSpan {
        start,
        stop: flat.places.len(),
        sos: direction(level.max(before)),
        eos: direction(level.max(links[last].behind)),
    })?;
    Ok(())
}

// The level of the last place before this one that isn't removed, or the base level. What is passed over lies directly
// before the place, so all sequences together pass over each place once.
fn level_before(levels: &Levels, place: usize) -> u8
    requires level { place ≤ length levels.now.level.items }
    requires removed { place ≤ length levels.now.removed.items }
    ensures { result ≡ before_at levels.now place }
{
    let mut i = place;
    while i > 0 {
        i -= 1;
        if !levels.removed[i] {
            return levels.level[i];
        }
    }
    levels.base
}

// Takes the places of the sequence that begins with a place, and tells the last of them.
fn take_places(taken: &mut PlaceList, links: &[Link], first: usize) -> Result<usize, AllocError>
    requires { HasChain links.now first }
    ensures places { OnOk result ((places : _) → Follows links.now first places → taken.new.items ≡ taken.old.items ++ first ∷ places) }
    ensures last { IfOk result (λ last. (places : _) → Follows links.now first places → last ≡ last_of first places) }
    ensures within { IfOk result (λ last. last < length links.now) }
{
    taken.push(first)?;
    let mut last = first;
    while let Some(next) = links[last].next {
        taken.push(next)?;
        last = next;
    }
    Ok(last)
}

fn direction(level: u8) -> BidiClass
    ensures { result ≡ direction level }
{
    if level % 2 == 0 {
        BidiClass::L
    } else {
        BidiClass::R
    }
}
