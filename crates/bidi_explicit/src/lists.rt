//! The isolating run sequences of a paragraph, each with a list of its own places (UAX 9, BD13 and X10).

ghost use Rattle.std.specs.Prelude.{◌≡◌, ◌≤◌, length, map, IfOk};
ghost use Rattle.std.specs.List.{All, concat};
ghost use Rattle.std.specs.List.Sorted.{IsPermutation};
ghost use Rattle.bidi_explicit.specs.Sequences.{HasOneLevel, IsRunOf, isolating_runs, kept_places};
ghost use Rattle.bidi_explicit.specs.Explicit.{explicit_levels};
ghost use Rattle.bidi_explicit.specs.Paragraph.{AreAligned};
ghost use Rattle.bidi_explicit.specs.Links.{sequence_of};
ghost use Rattle.bidi_explicit.specs.Spans.{AreSpans, sequence_at};

use crate::paragraph::{FlatRuns, Levels, Run, RunSpan, Runs};
use crate::sequences::flat_runs;
use std::alloc::{AllocError, Global};

/// The isolating run sequences of a paragraph with their sos and eos (UAX 9, BD13 and X10), in the order of their
/// first characters. The lists of the paragraph have one length. The places of each sequence rise, and all of them
/// together are the places of what isn't removed, each once. Where the levels are those that X1 to X9 give, each
/// sequence has one level. `flat_runs` gives the same without a list for each sequence.
pub fn runs(alloc: Global, levels: &Levels) -> Result<Runs, AllocError>
    requires { AreAligned levels.now }
    ensures runs { IfOk result (λ runs. map sequence_of runs.items ≡ isolating_runs levels.now.base levels.now.level.items levels.now.original.items levels.now.removed.items) }
    ensures cover { IfOk result (λ runs. IsPermutation (kept_places levels.now.removed.items) (concat (map (λ run. run.places.items) runs.items))) }
    ensures each { IfOk result (λ runs. All (λ run. IsRunOf levels.now.removed.items run.places.items) runs.items) }
    ensures level { IfOk result (λ runs. levels.now.level.items ≡ explicit_levels levels.now.base levels.now.original.items → All (λ run. HasOneLevel levels.now.level.items run.places.items) runs.items) }
{
    let flat = flat_runs(alloc, levels)?;
    let runs = copied(alloc, &flat)?;
    Ok(runs)
}

// The isolating run sequences whose places stand in one flat list, each with a list of its own (UAX 9, BD13).
fn copied(alloc: Global, flat: &FlatRuns) -> Result<Runs, AllocError>
    requires { AreSpans flat.now.places.items flat.now.spans.items }
    ensures { IfOk result (λ runs. map sequence_of runs.items ≡ map (sequence_at flat.now.places.items) flat.now.spans.items) }
{
    let mut runs = Vec::new(alloc);
    for i in 0..flat.spans.len() {
        let run = run_at(alloc, flat, flat.spans[i])?;
        runs.push(run)?;
    }
    Ok(runs)
}

fn run_at(alloc: Global, flat: &FlatRuns, span: RunSpan) -> Result<Run, AllocError>
    requires start { span.start ≤ span.stop }
    requires stop { span.stop ≤ length flat.now.places.items }
    ensures { IfOk result (λ run. sequence_of run ≡ sequence_at flat.now.places.items span) }
{
    Ok(Run {
        places: Vec::from_slice(alloc, &flat.places[span.start..span.stop])?,
        sos: span.sos,
        eos: span.eos,
    })
}
