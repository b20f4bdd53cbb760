//! The lines that are written.

ghost use Rattle.std.specs.Prelude.{◌≡◌, OnOk, flat_map};
ghost use Rattle.std.specs.Io.KnownBytes.{Appends};
ghost use Rattle.report_styles.specs.Lines as spec;
ghost use Rattle.report_styles.specs.Views.{all_of, told_of};

use crate::telling::Told;
use css_values::{Fate, Report};
use report_lines::write_refused;
use std::io;
use std::io::Write;

/// Writes a line for each.
#[tactic(auto, using(crate::proofs::Whole::all_written))]
pub(crate) fn write_all_told<W: Write>(told: &[Told<'_>], output: &mut W) -> io::Result<()>
    ensures { OnOk result (Appends (W.contents output.old) (W.contents output.new) (flat_map spec.line (all_of told.now))) }
{
    for one in told {
        write_told(one, output)?;
    }
    Ok(())
}

fn write_told<W: Write>(told: &Told<'_>, output: &mut W) -> io::Result<()>
    ensures { OnOk result (Appends (W.contents output.old) (W.contents output.new) (spec.line (told_of told.now))) }
{
    match told {
        Told::Judged(Report { name, place, fate }) => {
            writeln!(output, "{} {place} {name}", fate_word(*fate))
        }
        Told::Refused { kind, place } => write_refused(kind.word(), *place, output),
    }
}

fn fate_word(fate: Fate) -> &'static str
    ensures { result.now ≡ spec.fate_word fate }
{
    match fate {
        Fate::Kept => "Kept",
        Fate::UnknownName => "UnknownName",
        Fate::InvalidValue => "InvalidValue",
        Fate::Unsupported => "Unsupported",
    }
}
