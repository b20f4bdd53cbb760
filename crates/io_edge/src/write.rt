//! Bytes given to a sink as a whole.

ghost use Rattle.std.specs.Prelude.{◌≤◌, OnOk, IsErrOf};
ghost use Rattle.std.specs.Io.KnownBytes.{Appends};
ghost use Rattle.io_edge.specs.Edge.{Rose, AppendsFront};

use crate::{Sink, WriteError};

/// Gives all of `bytes` to a sink, in as many calls as it takes.
///
/// `WriteFault` comes only where the sink's count of faults rose in this call. After a refusal the sink
/// holds a front of `bytes` more than before.
pub fn write_all_of<K: Sink>(sink: &mut K, bytes: &[u8]) -> Result<(), WriteError>
    ensures front { AppendsFront (K.held sink.old) (K.held sink.new) bytes.now }
    ensures whole { OnOk result (Appends (K.held sink.old) (K.held sink.new) bytes.now) }
    ensures later { K.faults sink.old ≤ K.faults sink.new }
    ensures fault { IsErrOf result WriteError.WriteFault → Rose (K.faults sink.old) (K.faults sink.new) }
{
    let mut rest = bytes;
    while !rest.is_empty() {
        let count = sink.write(rest)?;
        rest = rest.split_at(count).1;
    }
    Ok(())
}
