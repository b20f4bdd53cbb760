//! A program that reports of a document.

ghost use Rattle.std.specs.Prelude.{◌≡◌, ◌≤◌, ℕ, List, IfOk, IsErrOf, OnOk};
ghost use Rattle.std.specs.Io.KnownBytes.{Appends};
ghost use Rattle.io_edge.specs.Edge.{AppendsFront, Rose};

use io_edge::{Sink, StdSink, StdSource, WriteError, read_all, write_all_of};
use std::alloc::{AllocError, Global};
use std::io;

/// How many bytes a document may have.
const GREATEST_LENGTH: usize = 1_048_576;

/// What a program writes of a document.
pub trait Report {
    /// All that is written for an input.
    ghost due: { Self → List ℕ → List ℕ };

    /// The text that is written for an input of these bytes. Only for want of memory there is none.
    fn lines(&self, alloc: Global, bytes: &[u8]) -> Result<Vec<u8>, AllocError>
        ensures { IfOk result (λ lines. lines.items ≡ due self.now bytes.now) };
}

/// Writes the report of what stands on standard input, or why that can't be read.
pub fn run<R: Report>(rt: &HostRuntime, report: &R) -> Result<(), WriteError> {
    let mut source = StdSource::new(rt.reader());
    let mut sink = StdSink::new(io::writer(rt));
    match read_all(rt.alloc(), &mut source, GREATEST_LENGTH) {
        Ok(bytes) => write_report(report, rt.alloc(), bytes.as_slice(), &mut sink),
        Err(error) => {
            let line = format!(in rt.alloc(); "unread: {error}\n")?;
            write_all_of(&mut sink, line.as_bytes())
        }
    }
}

/// Writes the report of these bytes: whole at Ok, else a front of it. `WriteFault` comes only where the sink's count of
/// faults rose in this call, so the other error is that no memory was left.
#[tactic(auto, using(io_edge::proofs::Growth::nothing_yet))]
pub fn write_report<R: Report, K: Sink>(
    report: &R,
    alloc: Global,
    bytes: &[u8],
    sink: &mut K,
) -> Result<(), WriteError>
    ensures front { AppendsFront (K.held sink.old) (K.held sink.new) (R.due report.now bytes.now) }
    ensures whole { OnOk result (Appends (K.held sink.old) (K.held sink.new) (R.due report.now bytes.now)) }
    ensures later { K.faults sink.old ≤ K.faults sink.new }
    ensures fault { IsErrOf result WriteError.WriteFault → Rose (K.faults sink.old) (K.faults sink.new) }
{
    let lines = report.lines(alloc, bytes)?;
    write_all_of(sink, lines.as_slice())
}
