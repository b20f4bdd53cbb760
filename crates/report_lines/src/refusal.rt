//! The line of a refusal.

ghost use Rattle.std.specs.Prelude.{OnOk};
ghost use Rattle.std.specs.Io.KnownBytes.{Appends};
ghost use Rattle.report_lines.specs.Refusal.{refused_line};

use std::io;
use std::io::Write;

/// Writes the line of a refusal: `refused`, the word of its kind, and its place.
pub fn write_refused<W: Write>(word: &str, place: usize, output: &mut W) -> io::Result<()>
    ensures { OnOk result (Appends (W.contents output.old) (W.contents output.new) (refused_line word.now place)) }
{
    writeln!(output, "refused {word} {place}")
}
