//! The listings of a flow and of its page in each of four modes, for a sink.

ghost use Rattle.std.specs.Prelude.{◌≡◌, ◌≤◌, OnOk, IsErrOf};
ghost use Rattle.std.specs.Io.KnownBytes.{Appends};
ghost use Rattle.io_edge.specs.Edge.{AppendsFront, Rose};
ghost use Rattle.listing.specs.Listing as listed;
ghost use Rattle.page_turn.specs.Rects.{IsTurning};
ghost use Rattle.page_turn.specs.Turning.{turned};
ghost use Rattle.place_map.specs.Near.{AreNearParts};
ghost use Rattle.place_map.specs.Placed.{placed_of};
ghost use Rattle.wm_units.specs.View.{IsView};
ghost use Rattle.modes_job.specs.Telling.{turns_of};

use io_edge::{Sink, WriteError};
use listing::{write_flow, write_listing};
use page_turn::turn;
use place_map::Placed;
use std::alloc::Global;
use wm_modes::WritingMode;

/// Writes a flow, which was placed in horizontal-tb, and its pages in horizontal-tb, vertical-rl, sideways-rl and sideways-lr: whole at
/// Ok, else a front of them. For an open document the flow is the page of `Session::page`, with its shifts, not that of `Session::flow`.
/// Takes memory for one turned page at a time; `WriteFault` comes only where the sink's count of faults rose in this call.
///
/// The sizes of the view are from 0 to 2^32 units, and all rectangles of the page and their content areas lie within 2^60 units
/// of 0.
pub fn tell_modes<K: Sink>(alloc: Global, flow: &Placed, sink: &mut K) -> Result<(), WriteError>
    requires view { IsView flow.now.view }
    requires near { AreNearParts (placed_of flow.now).parts }
    ensures whole { OnOk result (Appends (K.held sink.old) (K.held sink.new) (turns_of (placed_of flow.now))) }
    ensures front { AppendsFront (K.held sink.old) (K.held sink.new) (turns_of (placed_of flow.now)) }
    ensures later { K.faults sink.old ≤ K.faults sink.new }
    ensures fault { IsErrOf result WriteError.WriteFault → Rose (K.faults sink.old) (K.faults sink.new) }
{
    write_flow(flow, sink)?;
    write_listing(flow, sink)?;
    tell_turned(alloc, flow, WritingMode::VerticalRl, sink)?;
    tell_turned(alloc, flow, WritingMode::SidewaysRl, sink)?;
    tell_turned(alloc, flow, WritingMode::SidewaysLr, sink)
}

// Writes the page of a flow in a mode.
fn tell_turned<K: Sink>(
    alloc: Global,
    flow: &Placed,
    mode: WritingMode,
    sink: &mut K,
) -> Result<(), WriteError>
    requires mode { IsTurning mode }
    requires view { IsView flow.now.view }
    requires near { AreNearParts (placed_of flow.now).parts }
    ensures whole { OnOk result (Appends (K.held sink.old) (K.held sink.new) (listed.listing (turned mode (placed_of flow.now)))) }
    ensures front { AppendsFront (K.held sink.old) (K.held sink.new) (listed.listing (turned mode (placed_of flow.now))) }
    ensures later { K.faults sink.old ≤ K.faults sink.new }
    ensures fault { IsErrOf result WriteError.WriteFault → Rose (K.faults sink.old) (K.faults sink.new) }
{
    let page = turn(alloc, flow, mode)?;
    write_listing(&page, sink)
}
