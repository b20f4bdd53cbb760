//! What becomes of each declaration of a text, also of those that are refused: for those who tell an author.

ghost use Rattle.std.specs.Prelude.{◌≡◌, ◌<◌, IfErr, IfOk, length, option_map};
ghost use Rattle.reading.specs.Stop.{Gives};
ghost use Rattle.reading.specs.declared.stop.Stop.TheVariants as stops;
ghost use Rattle.css_values.specs.Reading.{as_written};
ghost use Rattle.css_values.specs.Reports as readers;
ghost use Rattle.css_values.specs.Reports.{reported_of};
ghost use Rattle.css_values.specs.Views.{stated_of};

use crate::declarations::{Stated, is_rule, next_stated, refused_at};
use crate::error::{Refusal, Stop};
use crate::judging::{Manner, Meaning, declare, meaning_of};
use crate::refused::is_unsupported;
use crate::value::Written;
use crate::within::Within;
use css_tokens::gap;
use css_types::Declarations;
use reading::{starts, strip};
use std::alloc::Global;

/// What becomes of a declaration once it is wholly read (CSS 2, 4.2).
#[derive(Clone, Copy, Debug, Drop, PartialEq, Eq)]
pub enum Fate {
    /// It declares longhands.
    Kept,
    /// It is dropped: no property has its name.
    UnknownName,
    /// It is dropped: its property doesn't take its value.
    InvalidValue,
    /// It means something that the profile doesn't have; a document with it is refused.
    Unsupported,
}

/// A declaration, and what becomes of it.
#[derive(Debug, Drop)]
pub struct Report<'a> {
    /// Its name as it is written.
    pub name: &'a str,
    /// The place of its name in the input, in bytes.
    pub place: usize,
    pub fate: Fate,
}

/// Reads the next declaration, or a `;` where there is none, and the gap behind it, and tells what becomes of it. One
/// that is refused is told like another, and no limit counts. `end` is the place of the end of the text in the input. It
/// stops where the text doesn't go on as declarations do, and before an at-rule in a rule.
#[tactic(auto, unfolding(crate::specs::Reports::next))]
pub fn next_report(
    alloc: Global,
    within: Within,
    end: usize,
    text: &str,
) -> Result<(Option<Report<'_>>, &str), Stop<'_>>
    ensures read { Gives (λ r. (option_map reported_of r.0, r.1.now)) result (readers.next within end text.now) }
    ensures shorter { IfOk result (λ r. length r.1.now < length text.now) }
{
    let (told, rest) = item(alloc, within, end, text)?;
    Ok((told, gap(rest)?.1))
}

#[tactic(auto, using(reading::proofs::Shorter::strip_strict))]
fn item(
    alloc: Global,
    within: Within,
    end: usize,
    text: &str,
) -> Result<(Option<Report<'_>>, &str), Stop<'_>>
    ensures read { Gives (λ r. (option_map reported_of r.0, r.1.now)) result (readers.item within end text.now) }
    ensures shorter { IfOk result (λ r. length r.1.now < length text.now) }
{
    if starts(";", text) {
        Ok((None, strip(";", text)?))
    } else {
        let (told, rest) = declaration(alloc, within, end, text)?;
        Ok((Some(told), rest))
    }
}

fn declaration(
    alloc: Global,
    within: Within,
    end: usize,
    text: &str,
) -> Result<(Report<'_>, &str), Stop<'_>>
    ensures read { Gives (λ r. (reported_of r.0, r.1.now)) result (readers.report within end text.now) }
    ensures shorter { IfOk result (λ r. length r.1.now < length text.now) }
{
    if is_rule(within) && starts("@", text) {
        return Err(Stop::Refused(Refusal::Unsupported, text.as_bytes()));
    }
    let (stated, rest) = next_stated(alloc, within, text)?;
    let told = report_of(alloc, within, end, stated)?;
    Ok((told, rest))
}

fn report_of<'a>(
    alloc: Global,
    within: Within,
    end: usize,
    stated: Stated<'a>,
) -> Result<Report<'a>, Stop<'static>>
    ensures told { IfOk result (λ told. reported_of told ≡ readers.reported within end (stated_of stated.entry)) }
    ensures memory { IfErr result (λ stop. stop ≡ stops.Memory) }
{
    let Stated { name, value, left } = stated;
    let place = end.saturating_sub(left.len());
    let fate = fate_of(alloc, within, name, &value)?;
    Ok(Report { name, place, fate })
}

// What becomes of a declaration of this name and value.
#[tactic(auto, unfolding(crate::specs::Judging::expanded))]
fn fate_of(
    alloc: Global,
    within: Within,
    name: &str,
    value: &Written<'_>,
) -> Result<Fate, Stop<'static>>
    ensures told { (left : _) → IfOk result (λ fate. fate ≡ readers.fate within (record { name = name.now; value = as_written value.now; left = left })) }
    ensures memory { IfErr result (λ stop. stop ≡ stops.Memory) }
{
    let meaning = meaning_of(name);
    let tokens = value.tokens.as_slice();
    if is_unsupported(name, value.has_var, meaning, tokens) {
        return Ok(Fate::Unsupported);
    }
    if refused_at(within, value.at_sign).is_some() {
        return Ok(Fate::Unsupported);
    }
    let manner = Manner {
        important: value.important,
        place: 0,
    };
    let mut declared = Declarations::new(alloc);
    declare(alloc, meaning, tokens, manner, &mut declared)?;
    Ok(dropped_or_kept(meaning, declared.is_empty()))
}

fn dropped_or_kept(meaning: Meaning, declares_none: bool) -> Fate
    ensures { result ≡ readers.dropped_or_kept meaning declares_none }
{
    if !declares_none {
        return Fate::Kept;
    }
    match meaning {
        Meaning::Unknown => Fate::UnknownName,
        Meaning::Property(_) | Meaning::Shorthand(_) => Fate::InvalidValue,
    }
}
