//! Runs over streams that fail, that move few bytes at a call, or that find no memory. Contracts say that no other bytes are written than
//! those that are due; that a fault isn't passed over stands in none.

use crate::running::{counted, words};
use crate::scant::ScantSink;
use io_edge::{MemorySink, MemorySource, SteadySource};
use std::marker::Brand;
use std::process::Abort;
use std::sync::ledger::Blank;
use std::test::Fail;
use wm_run::Status;

/// A document whose listing has 85 bytes. That of its flow has 71, and those of its pages in vertical-rl, sideways-rl and sideways-lr
/// have 89, 89 and 83.
const DOCUMENT: &[u8] = b"<html><body></body></html>";

const LAYOUT: &[&str] = &["layout"];

const MODES: &[&str] = &["modes"];

const PROBE: &[&str] = &["probe"];

const GEN: &[&str] = &["gen", "--count", "1"];

/// A run: the words, the call of the source that fails, how many bytes each other call gives, the call of the sink that fails,
/// how many bytes each other call takes, the status, and how many bytes the sink then holds.
type Run = (
    &'static [&'static str],
    u64,
    usize,
    u64,
    usize,
    Status,
    usize,
);

/// A call that isn't reached.
const NEVER: u64 = 1_000;

static RUNS: [Run; 22] = [
    (LAYOUT, 0, 4_096, NEVER, 4_096, Status::ReadFault, 0),
    (LAYOUT, 1, 4_096, NEVER, 4_096, Status::ReadFault, 0),
    (LAYOUT, 5, 1, NEVER, 4_096, Status::ReadFault, 0),
    (LAYOUT, 26, 1, NEVER, 4_096, Status::ReadFault, 0),
    (LAYOUT, NEVER, 4_096, 0, 4_096, Status::WriteFault, 0),
    (LAYOUT, NEVER, 4_096, 0, 7, Status::WriteFault, 0),
    (LAYOUT, NEVER, 4_096, 2, 7, Status::WriteFault, 14),
    (LAYOUT, NEVER, 4_096, 12, 7, Status::WriteFault, 84),
    (LAYOUT, NEVER, 1, NEVER, 1, Status::Done, 85),
    // Each listing is handed to the sink by itself: before the first, between two, and not at all.
    (MODES, NEVER, 4_096, 0, 4_096, Status::WriteFault, 0),
    (MODES, NEVER, 4_096, 1, 4_096, Status::WriteFault, 71),
    (MODES, NEVER, 4_096, 2, 4_096, Status::WriteFault, 156),
    (MODES, NEVER, 4_096, 3, 4_096, Status::WriteFault, 245),
    (MODES, NEVER, 4_096, 4, 4_096, Status::WriteFault, 334),
    (MODES, NEVER, 4_096, 5, 4_096, Status::Done, 417),
    // Within the second.
    (MODES, NEVER, 4_096, 12, 7, Status::WriteFault, 78),
    (MODES, NEVER, 1, NEVER, 1, Status::Done, 417),
    (MODES, 0, 4_096, NEVER, 4_096, Status::ReadFault, 0),
    (MODES, 26, 1, NEVER, 4_096, Status::ReadFault, 0),
    // Nothing is asked.
    (PROBE, NEVER, 1, NEVER, 1, Status::Done, 0),
    (PROBE, 5, 1, NEVER, 1, Status::ReadFault, 0),
    // Nothing is read.
    (GEN, 0, 1, NEVER, 4_096, Status::Done, 25),
];

// With which status a run ends, and how many bytes the sink then holds.
fn ended(rt: &(impl Abort + AllocGlobal), run: &Run) -> Result<(Status, usize), Fail> {
    let (texts, failing_read, given, failing_write, taken, _, _) = *run;
    let words = words(rt, texts)?;
    // A call that doesn't fail moves a byte.
    let mut source = MemorySource::new(rt.alloc(), DOCUMENT, &[failing_read], given.max(1))?;
    let mut sink = MemorySink::new(rt.alloc(), &[failing_write], taken.max(1))?;
    let status = counted::<_, _, Brand, Brand>(
        rt.alloc(),
        &words,
        &mut source,
        &mut sink,
        Blank::new(1),
        Blank::new(1),
    )?;
    Ok((status, sink.bytes().len()))
}

#[test]
fn runs_over_streams_with_faults_or_small_pieces(rt: HostRuntime) -> Result<(), Fail> {
    for run in &RUNS {
        let (texts, failing_read, _, failing_write, _, status, held) = *run;
        let found = ended(&rt, run)?;
        assert_eq!(rt;
            found,
            (status, held),
            "{texts:?} {failing_read} {failing_write}"
        );
    }
    Ok(())
}

/// A run over a sink that finds memory for so many pieces: the words, how many, the status, and how many bytes the sink then holds.
type ScantRun = (&'static [&'static str], u64, Status, usize);

static SCANT_RUNS: [ScantRun; 8] = [
    (LAYOUT, 0, Status::Memory, 0),
    (LAYOUT, 1, Status::Done, 85),
    (MODES, 0, Status::Memory, 0),
    (MODES, 1, Status::Memory, 71),
    (MODES, 2, Status::Memory, 156),
    (MODES, 3, Status::Memory, 245),
    (MODES, 4, Status::Memory, 334),
    (MODES, 5, Status::Done, 417),
];

// With which status a run ends over such a sink, and how many bytes it then holds.
fn ended_scant(
    rt: &(impl Abort + AllocGlobal),
    texts: &[&str],
    pieces: u64,
) -> Result<(Status, usize), Fail> {
    let words = words(rt, texts)?;
    let mut source = SteadySource::new(DOCUMENT);
    let mut sink = ScantSink::new(rt.alloc(), pieces);
    let status = counted::<_, _, Brand, Brand>(
        rt.alloc(),
        &words,
        &mut source,
        &mut sink,
        Blank::new(1),
        Blank::new(1),
    )?;
    Ok((status, sink.len()))
}

#[test]
fn runs_over_a_sink_without_memory(rt: HostRuntime) -> Result<(), Fail> {
    for run in &SCANT_RUNS {
        let (texts, pieces, status, held) = *run;
        let found = ended_scant(&rt, texts, pieces)?;
        assert_eq!(rt; found, (status, held), "{texts:?} {pieces}");
    }
    Ok(())
}
