//! A listing, put line by line into pieces for a sink.

ghost use Rattle.std.specs.Prelude.{◌≡◌, ◌≤◌, ◌++◌, codes, OnOk, IsErrOf};
ghost use Rattle.std.specs.Io.KnownBytes.{Appends};
ghost use Rattle.io_edge.specs.Edge.{Rose, AppendsFront, AppendsUpTo};
ghost use Rattle.place_map.specs.Placed.{before, none, parts_of, placed_of};
ghost use Rattle.listing.specs.Listing as spec;

use crate::lines::{flow_line, page_line, put_line};
use crate::text_standing::{TextStanding, standing_inside};
use crate::words::Line;
use io_edge::{Sink, Waiting, WriteError};
use place_map::{Placed, PlacedPart};
use std::slice;

/// Writes the listing of a page: whole at Ok, else a front of it. `WriteFault` comes only where the sink's count of faults rose
/// in this call. The sink is given pieces of 4,096 bytes, but for the last one.
#[tactic(auto, unfolding(crate::specs::Listing::listing))]
pub fn write_listing<K: Sink>(placed: &Placed, sink: &mut K) -> Result<(), WriteError>
    ensures front { AppendsFront (K.held sink.old) (K.held sink.new) (spec.listing (placed_of placed.now)) }
    ensures whole { OnOk result (Appends (K.held sink.old) (K.held sink.new) (spec.listing (placed_of placed.now))) }
    ensures later { K.faults sink.old ≤ K.faults sink.new }
    ensures fault { IsErrOf result WriteError.WriteFault → Rose (K.faults sink.old) (K.faults sink.new) }
{
    let mode = placed.mode();
    let first = page_line(placed.page(), mode, placed.direction());
    write_from(&first, TextStanding::InMode(mode), &placed.root, sink)
}

/// Writes the listing of a page of the flow, which stands in horizontal-tb: its first line has the inline and the block size of the
/// view, and nothing is told of how text stands. Whole at Ok, else a front of it; `WriteFault` comes only where the sink's count
/// of faults rose in this call. The sink is given pieces of 4,096 bytes, but for the last one.
#[tactic(auto, unfolding(crate::specs::Listing::flow_listing))]
pub fn write_flow<K: Sink>(placed: &Placed, sink: &mut K) -> Result<(), WriteError>
    ensures front { AppendsFront (K.held sink.old) (K.held sink.new) (spec.flow_listing (placed_of placed.now)) }
    ensures whole { OnOk result (Appends (K.held sink.old) (K.held sink.new) (spec.flow_listing (placed_of placed.now))) }
    ensures later { K.faults sink.old ≤ K.faults sink.new }
    ensures fault { IsErrOf result WriteError.WriteFault → Rose (K.faults sink.old) (K.faults sink.new) }
{
    let first = flow_line(placed.view, placed.direction());
    write_from(&first, TextStanding::OnFlow, &placed.root, sink)
}

// A first line, the lines of a root and what stands in it, the last line.
fn write_from<K: Sink>(
    first: &Line,
    standing: TextStanding,
    root: &PlacedPart,
    sink: &mut K,
) -> Result<(), WriteError>
    ensures front { AppendsFront (K.held sink.old) (K.held sink.new) (first.now.bytes ++ spec.lines standing (before root.now none) ++ codes "end\n") }
    ensures whole { OnOk result (Appends (K.held sink.old) (K.held sink.new) (first.now.bytes ++ spec.lines standing (before root.now none) ++ codes "end\n")) }
    ensures later { K.faults sink.old ≤ K.faults sink.new }
    ensures fault { IsErrOf result WriteError.WriteFault → Rose (K.faults sink.old) (K.faults sink.new) }
{
    let mut waiting = Waiting::new();
    waiting.put(first.as_bytes(), sink)?;
    put_parts(standing, slice::from_ref(root), &mut waiting, sink)?;
    waiting.put(b"end\n", sink)?;
    waiting.flush(sink)
}

// The lines of fragments one after the other, each before those inside it.
fn put_parts<K: Sink>(
    standing: TextStanding,
    parts: &[PlacedPart],
    waiting: &mut Waiting,
    sink: &mut K,
) -> Result<(), WriteError>
    ensures front { AppendsFront (K.held sink.old) (K.held sink.new) (waiting.old ++ spec.lines standing (parts_of parts.now)) }
    ensures waits { OnOk result (AppendsUpTo (K.held sink.old) (K.held sink.new) (waiting.old ++ spec.lines standing (parts_of parts.now)) waiting.new) }
    ensures later { K.faults sink.old ≤ K.faults sink.new }
    ensures fault { IsErrOf result WriteError.WriteFault → Rose (K.faults sink.old) (K.faults sink.new) }
{
    for part in parts {
        put_line(standing, part, waiting, sink)?;
        put_parts(
            standing_inside(standing, part.kind()),
            part.children(),
            waiting,
            sink,
        )?;
    }
    Ok(())
}
