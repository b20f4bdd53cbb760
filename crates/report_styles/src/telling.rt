//! What is told of a text, and how telling stops.

ghost use Rattle.std.specs.Prelude.{◌≡◌, option_map, IfErr, OnOk};
ghost use Rattle.css_values.specs.Reports.{reported_of};
ghost use Rattle.report_styles.specs.Told as readers;
ghost use Rattle.report_styles.specs.Views.{all_of};
ghost use Rattle.report_styles.specs.declared.telling.Halt.TheVariants.{Memory as NoMemory};

use css_values::{Refusal, Report};
use std::alloc::AllocFailed;

/// What is told.
#[derive(Debug, Drop)]
pub(crate) enum Told<'a> {
    /// What becomes of a declaration.
    Judged(Report<'a>),
    /// What is refused beside, and its place in bytes.
    Refused { kind: Refusal, place: usize },
}

/// Why telling doesn't go on in a text.
#[derive(Debug, Drop)]
pub(crate) enum Halt {
    /// A refusal takes all that is left.
    End,
    /// No memory was left.
    Memory,
}

impl<T: Drop> From<AllocFailed<T>> for Halt {
    ghost from_gives = { λ _ halt. halt ≡ NoMemory };

    fn from(_e: AllocFailed<T>) -> Halt {
        Halt::Memory
    }
}

/// Where what is told of a text is said to stand: all of it at one place, else each counted back from the place of the
/// text's end.
#[derive(Clone, Copy)]
pub(crate) struct Places {
    pub end: usize,
    pub at: Option<usize>,
}

/// Tells what becomes of a declaration, if one was read.
pub(crate) fn tell<'a>(
    places: Places,
    report: Option<Report<'a>>,
    told: &mut Vec<Told<'a>>,
) -> Result<(), Halt>
    ensures told { OnOk result (all_of told.new.items ≡ readers.with_report places (all_of told.old.items) (option_map reported_of report.entry)) }
    ensures memory { IfErr result (λ halt. halt ≡ NoMemory) }
{
    if let Some(Report { name, place, fate }) = report {
        let place = places.at.unwrap_or(place);
        told.push(Told::Judged(Report { name, place, fate }))?;
    }
    Ok(())
}

/// Tells a refusal, before these bytes of the text.
pub(crate) fn tell_refusal(
    places: Places,
    kind: Refusal,
    left: &[u8],
    told: &mut Vec<Told<'_>>,
) -> Result<(), Halt>
    ensures told { OnOk result (all_of told.new.items ≡ readers.with_refusal places (all_of told.old.items) (kind, left.now)) }
    ensures memory { IfErr result (λ halt. halt ≡ NoMemory) }
{
    let place = places.at.unwrap_or(places.end.saturating_sub(left.len()));
    told.push(Told::Refused { kind, place })?;
    Ok(())
}
