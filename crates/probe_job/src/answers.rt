//! The answers to the lines of a probe, put into pieces for a sink.

ghost use Rattle.std.specs.Prelude.{◌≡◌, ◌≤◌, OnOk, IsErrOf};
ghost use Rattle.std.specs.Io.KnownBytes.{Appends};
ghost use Rattle.io_edge.specs.Edge.{AppendsFront, Rose};
ghost use Rattle.place_map.specs.Near.{AreNearParts};
ghost use Rattle.place_map.specs.Placed.{placed_of};
ghost use Rattle.probe_job.specs.Answers.{answer, answers};

use crate::lines::{Line, caret_line, hit_line};
use hit_caret::{Probe, caret, hit};
use io_edge::{Sink, Waiting, WriteError};
use place_map::Placed;

/// Writes the answers to the lines of a probe over a page: what stands at a point, and where the caret stands at a place.
/// Whole at Ok, else a front of them. `WriteFault` comes only where the sink's count of faults rose in this call. No
/// coordinate of the page is further than 2^60 from 0. The sink is given pieces of 4,096 bytes, but for the last one.
pub fn tell_answers<K: Sink>(
    placed: &Placed,
    probes: &[Probe],
    sink: &mut K,
) -> Result<(), WriteError>
    requires near { AreNearParts (placed_of placed.now).parts }
    ensures whole { OnOk result (Appends (K.held sink.old) (K.held sink.new) (answers (placed_of placed.now) probes.now)) }
    ensures front { AppendsFront (K.held sink.old) (K.held sink.new) (answers (placed_of placed.now) probes.now) }
    ensures later { K.faults sink.old ≤ K.faults sink.new }
    ensures fault { IsErrOf result WriteError.WriteFault → Rose (K.faults sink.old) (K.faults sink.new) }
{
    let mut waiting = Waiting::new();
    for probe in probes {
        let line = answer(placed, probe);
        waiting.put(line.as_bytes(), sink)?;
    }
    waiting.flush(sink)
}

// The answer to a line of a probe.
fn answer(placed: &Placed, probe: &Probe) -> Line
    requires near { AreNearParts (placed_of placed.now).parts }
    ensures { result.bytes ≡ answer (placed_of placed.now) probe.now }
{
    match probe {
        Probe::At { x, y } => hit_line(hit(placed, *x, *y)),
        Probe::Caret { node, place } => caret_line(caret(placed, *node, *place)),
    }
}
