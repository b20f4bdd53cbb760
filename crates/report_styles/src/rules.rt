//! The rules of a sheet and the declarations of a text, one after the other.

ghost use Rattle.std.specs.Prelude.{◌<◌, ◌≤◌, ◌≡◌, [], length, IfOk};
ghost use Rattle.reading.specs.Readers.{repeat};
ghost use Rattle.report_styles.specs.GoingOn.{behind_declaration};
ghost use Rattle.report_styles.specs.Told as readers;
ghost use Rattle.report_styles.specs.Views.{all_of, Goes};

use crate::going_on::{behind_declaration, behind_rule};
use crate::telling::{Halt, Places, Told, tell, tell_refusal};
use css_sheet::rule_heads;
use css_tokens::gap;
use css_values::{Refusal, Stop, Within, list_ends, next_report};
use reading::strip;
use std::alloc::Global;

/// Tells the rules of a sheet.
#[tactic(auto, unfolding(crate::specs::Told::rules))]
pub(crate) fn rules<'a>(
    alloc: Global,
    places: Places,
    text: &'a str,
    told: &mut Vec<Told<'a>>,
) -> Result<&'a str, Halt>
    ensures read { Goes result (all_of told.new.items) (readers.rules places (all_of told.old.items) text.now) }
{
    let rest = past_gap(places, text, told)?;
    let rest = rules_behind_gap(alloc, places, rest, told)?;
    Ok(rest)
}

fn rules_behind_gap<'a>(
    alloc: Global,
    places: Places,
    text: &'a str,
    told: &mut Vec<Told<'a>>,
) -> Result<&'a str, Halt>
    ensures { Goes result (all_of told.new.items) (repeat readers.has_rule (readers.rule_turn places) (all_of told.old.items) text.now) }
{
    let mut rest = text;
    while has_rule(rest) {
        rest = rule_turn(alloc, places, rest, told)?;
    }
    Ok(rest)
}

fn has_rule(text: &str) -> bool
    ensures { result ≡ readers.has_rule [] text.now }
{
    !text.is_empty()
}

// A rule, and the gap behind it.
fn rule_turn<'a>(
    alloc: Global,
    places: Places,
    text: &'a str,
    told: &mut Vec<Told<'a>>,
) -> Result<&'a str, Halt>
    ensures read { Goes result (all_of told.new.items) (readers.rule_turn places (all_of told.old.items) text.now) }
    ensures shorter { IfOk result (λ rest. length rest.now < length text.now) }
{
    let rest = rule(alloc, places, text, told)?;
    let rest = past_gap(places, rest, told)?;
    Ok(rest)
}

fn rule<'a>(
    alloc: Global,
    places: Places,
    text: &'a str,
    told: &mut Vec<Told<'a>>,
) -> Result<&'a str, Halt>
    ensures read { Goes result (all_of told.new.items) (readers.rule places (all_of told.old.items) text.now) }
    ensures shorter { IfOk result (λ rest. length rest.now < length text.now) }
{
    match rule_heads(alloc, 0, text) {
        Ok((_, rest)) => block(alloc, places, rest, told),
        Err(Stop::Refused(kind, left)) => {
            tell_refusal(places, kind, left, told)?;
            behind_rule(text).ok_or(Halt::End)
        }
        Err(Stop::Memory) => Err(Halt::Memory),
    }
}

// The declarations of a rule, and its `}`.
#[tactic(auto, using(reading::proofs::Shorter::strip_strict))]
fn block<'a>(
    alloc: Global,
    places: Places,
    text: &'a str,
    told: &mut Vec<Told<'a>>,
) -> Result<&'a str, Halt>
    ensures read { Goes result (all_of told.new.items) (readers.block places (all_of told.old.items) text.now) }
    ensures shorter { IfOk result (λ rest. length rest.now < length text.now) }
{
    // What is reported doesn't hang on these counts.
    let within = Within::Rule {
        selectors: 0,
        before: 0,
    };
    let rest = declarations(alloc, within, places, text, told)?;
    let rest = past_block_end(places, rest, told)?;
    Ok(rest)
}

/// Tells declarations up to where they end.
#[tactic(auto, unfolding(crate::specs::Told::declarations))]
pub(crate) fn declarations<'a>(
    alloc: Global,
    within: Within,
    places: Places,
    text: &'a str,
    told: &mut Vec<Told<'a>>,
) -> Result<&'a str, Halt>
    ensures read { Goes result (all_of told.new.items) (readers.declarations within places (all_of told.old.items) text.now) }
    ensures shorter { IfOk result (λ rest. length rest.now ≤ length text.now) }
{
    let rest = past_gap(places, text, told)?;
    let rest = declarations_behind_gap(alloc, within, places, rest, told)?;
    Ok(rest)
}

fn declarations_behind_gap<'a>(
    alloc: Global,
    within: Within,
    places: Places,
    text: &'a str,
    told: &mut Vec<Told<'a>>,
) -> Result<&'a str, Halt>
    ensures read { Goes result (all_of told.new.items) (repeat (readers.has_declaration within) (readers.declaration within places) (all_of told.old.items) text.now) }
    ensures shorter { IfOk result (λ rest. length rest.now ≤ length text.now) }
{
    let mut rest = text;
    while has_declaration(within, rest) {
        rest = declaration(alloc, within, places, rest, told)?;
    }
    Ok(rest)
}

fn has_declaration(within: Within, text: &str) -> bool
    ensures { result ≡ readers.has_declaration within [] text.now }
{
    !(text.is_empty() || list_ends(within, text))
}

fn declaration<'a>(
    alloc: Global,
    within: Within,
    places: Places,
    text: &'a str,
    told: &mut Vec<Told<'a>>,
) -> Result<&'a str, Halt>
    ensures read { Goes result (all_of told.new.items) (readers.declaration within places (all_of told.old.items) text.now) }
    ensures shorter { IfOk result (λ rest. length rest.now < length text.now) }
{
    match next_report(alloc, within, places.end, text) {
        Ok((report, rest)) => {
            tell(places, report, told)?;
            Ok(rest)
        }
        Err(Stop::Refused(kind, left)) => {
            tell_refusal(places, kind, left, told)?;
            behind_refused(within, places, text, told)
        }
        Err(Stop::Memory) => Err(Halt::Memory),
    }
}

// The text behind a refused declaration, and behind the gap there.
fn behind_refused<'a>(
    within: Within,
    places: Places,
    text: &'a str,
    told: &mut Vec<Told<'_>>,
) -> Result<&'a str, Halt>
    ensures read { Goes result (all_of told.new.items) (readers.goes_on_past_gap places (all_of told.old.items) (behind_declaration (readers.is_in_rule within) text.now)) }
    ensures shorter { IfOk result (λ rest. length rest.now < length text.now) }
{
    match behind_declaration(text, is_in_rule(within)) {
        Some(rest) => past_gap(places, rest, told),
        None => Err(Halt::End),
    }
}

fn is_in_rule(within: Within) -> bool
    ensures { result ≡ readers.is_in_rule within }
{
    matches!(within, Within::Rule { .. })
}

// The text behind a gap; a comment in it that isn't ended is told.
fn past_gap<'a>(places: Places, text: &'a str, told: &mut Vec<Told<'_>>) -> Result<&'a str, Halt>
    ensures read { Goes result (all_of told.new.items) (readers.past_gap places (all_of told.old.items) text.now) }
    ensures shorter { IfOk result (λ rest. length rest.now ≤ length text.now) }
{
    match gap(text) {
        Ok((_, rest)) => Ok(rest),
        Err(left) => {
            tell_refusal(places, Refusal::CssSyntax, left, told)?;
            Err(Halt::End)
        }
    }
}

// The text behind the `}` of a rule; that there is none is told.
#[tactic(auto, using(reading::proofs::Shorter::strip_strict))]
fn past_block_end<'a>(
    places: Places,
    text: &'a str,
    told: &mut Vec<Told<'_>>,
) -> Result<&'a str, Halt>
    ensures read { Goes result (all_of told.new.items) (readers.past_block_end places (all_of told.old.items) text.now) }
    ensures shorter { IfOk result (λ rest. length rest.now < length text.now) }
{
    match strip("}", text) {
        Ok(rest) => Ok(rest),
        Err(left) => {
            tell_refusal(places, Refusal::CssSyntax, left, told)?;
            Err(Halt::End)
        }
    }
}
