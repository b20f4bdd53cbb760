//! The lines of a probe.

ghost use Rattle.std.specs.Prelude.{◌≡◌, IfErr, IfOk};
ghost use Rattle.std.specs.List.{after_first, before_first};
ghost use Rattle.std.specs.Str.Lines.{strip_carriage_return};
ghost use Rattle.hit_caret.specs.Answered.{IsTheProbe, RefusesProbe, Told};
ghost use Rattle.hit_caret.specs.Error.{Reads, told_at};
ghost use Rattle.hit_caret.specs.Probing as readers;

use crate::error::{Halt, ProbeError, Refusal};
use crate::probe_line::probe_of_line;
use crate::probes::{Probe, Probes};
use std::alloc::Global;

/// The greatest count of lines that ask something.
const MOST_PROBES: usize = 10_000;

/// Reads a probe (docs/PROFILE/points.md). `start` is the place of its first byte in the input. A refusal has the place of
/// the first byte of a line in that input, held at the last number of usize. Takes memory for the probes.
pub fn read_probe(alloc: Global, text: &str, start: usize) -> Result<Probes, ProbeError>
    // The answer is that of the reading: what the lines ask, or the refusal with its place.
    ensures read { Told start (λ probes. probes.items) result (readers.probes text.now) }
    // The text is a probe that asks this and nothing else; where it is refused it is none.
    ensures found { IfOk result (λ probes. IsTheProbe text.now probes.items) }
    ensures refused { IfErr result (λ error. RefusesProbe text.now error) }
{
    answer_probe(alloc, text, start)
}

// The reading of a probe, with its places.
fn answer_probe(alloc: Global, text: &str, start: usize) -> Result<Probes, ProbeError>
    ensures { Told start (λ probes. probes.items) result (readers.probes text.now) }
{
    let mut probes = Probes::new(alloc);
    let mut rest = text;
    while !rest.is_empty() {
        let (line, after) = first_line(rest);
        match read_line(&mut probes, line) {
            Ok(()) => rest = after,
            Err(halt) => return Err(told(start.saturating_add(text.len() - rest.len()), halt)),
        }
    }
    Ok(probes)
}

fn told(place: usize, halt: Halt) -> ProbeError
    ensures { result ≡ told_at place halt }
{
    match halt {
        Halt::Refused(kind) => ProbeError::Refused { kind, place },
        Halt::Memory => ProbeError::Memory,
    }
}

// The first line, and what stands behind its end.
fn first_line(text: &str) -> (&str, &str)
    ensures line { result.0.now ≡ before_first readers.is_lf text.now }
    ensures after { result.1.now ≡ after_first readers.is_lf text.now }
{
    match text.split_once('\n') {
        Some(parts) => parts,
        None => (text, ""),
    }
}

// A line more.
#[tactic(auto, unfolding(crate::specs::Probing::with_line))]
fn read_line(probes: &mut Probes, line: &str) -> Result<(), Halt>
    ensures { Reads (λ _. probes.new.items) result (readers.with_line probes.old.items line.now) }
{
    let line = without_cr(line);
    if is_blank(line) {
        return Ok(());
    }
    let (probe, left) = probe_of_line(line)?;
    put_probe(probes, probe, left)
}

// What a line asks with nothing behind it, after what was asked before.
fn put_probe(probes: &mut Probes, probe: Probe, left: &str) -> Result<(), Halt>
    ensures { Reads (λ _. probes.new.items) result (readers.with_read probe left.now probes.old.items) }
{
    if !left.is_empty() {
        return Err(Halt::Refused(Refusal::ScriptSyntax));
    }
    if probes.len() >= MOST_PROBES {
        return Err(Halt::Refused(Refusal::TooManyEdits));
    }
    probes.push(probe)?;
    Ok(())
}

fn without_cr(line: &str) -> &str
    ensures { result.now ≡ strip_carriage_return line.now }
{
    match line.strip_suffix('\r') {
        Some(front) => front,
        None => line,
    }
}

fn is_blank(line: &str) -> bool
    ensures { result ≡ readers.is_blank line.now }
{
    match line.as_bytes() {
        [] => true,
        [byte, ..] => *byte == b'#',
    }
}
