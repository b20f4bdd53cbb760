//! The lines that are written.

ghost use Rattle.std.specs.Prelude.{OnOk, flat_map};
ghost use Rattle.std.specs.Io.KnownBytes.{Appends};
ghost use Rattle.report_nodes.specs.Lines as spec;

use std::io;
use std::io::Write;

/// Writes a line for each.
pub(crate) fn write_places<W: Write>(places: &[usize], output: &mut W) -> io::Result<()>
    ensures { OnOk result (Appends (W.contents output.old) (W.contents output.new) (flat_map spec.line places.now)) }
{
    for place in places {
        write_place(*place, output)?;
    }
    Ok(())
}

fn write_place<W: Write>(place: usize, output: &mut W) -> io::Result<()>
    ensures { OnOk result (Appends (W.contents output.old) (W.contents output.new) (spec.line place)) }
{
    writeln!(output, "{place}")
}
