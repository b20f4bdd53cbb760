//! Declarations, one after the other: each is judged once it is wholly read.

ghost use Rattle.std.specs.Prelude.{◌≡◌, ◌≤◌, ◌<◌, List, [], IfErr, IfOk, length};
ghost use Rattle.std.specs.List.{All};
ghost use Rattle.reading.specs.Readers.{Answers, repeat};
ghost use Rattle.css_values.specs.Answered.{IsKept, IsWithinLimit, RefusesAttribute};
ghost use Rattle.css_values.specs.Declarations as readers;
ghost use Rattle.reading.specs.Stop.{Gives, end_of};
ghost use Rattle.css_values.specs.Error.{Tells, Told, spelled};
ghost use Rattle.css_values.specs.Grammar as grammar;
ghost use Rattle.css_values.specs.Reading.{text_of};
ghost use Rattle.css_values.specs.Views.{stated_of};
ghost use Rattle.css_types.specs.declared.value.Declaration as declaration_type;
ghost use Rattle.css_values.specs.declared.within.Within.TheVariants.{Attribute};

use crate::error::{CssError, Refusal, Stop};
use crate::judging::{Manner, declare, meaning_of};
use crate::refused::is_unsupported;
use crate::value::{Written, value};
use crate::within::Within;
use css_tokens::{gap, name, name_ahead};
use css_types::Declarations;
use reading::{starts, strip};
use std::alloc::Global;

/// The greatest count of declarations in the rules of a document's sheets, each counted for each selector.
const MOST_DECLARATIONS: usize = 65_536;

/// A declaration as it stands, and the text from its name on.
#[derive(Drop)]
pub(crate) struct Stated<'a> {
    pub name: &'a str,
    pub value: Written<'a>,
    pub left: &'a str,
}

/// Reads the declarations of a style attribute (CSS Style Attributes, 3): to the end of the text, with shorthands
/// expanded in order and invalid declarations dropped. `start` is the place of the text's first byte in the input, and
/// the places of declarations and refusals are in that input. They are counted back from the text's end, which is held
/// at the last number of usize.
#[tactic(auto, using(crate::proofs::AnsweredLaws::attribute_found, crate::proofs::AnsweredLaws::stop_refuses, crate::proofs::AnsweredLaws::stop_within_limit))]
pub fn read_declarations(alloc: Global, text: &str, start: usize) -> Result<Declarations, CssError>
    // The answer is that of the reading: the declarations, or the refusal with its place.
    ensures read { Told (end_of start text.now) (λ all. all.items) result (readers.declarations Attribute (end_of start text.now) text.now) }
    // The text is these declarations; where it is refused it is none.
    ensures found { IfOk result (λ all. grammar.AreDeclarations Attribute (end_of start text.now) text.now [] all.items) }
    ensures refused { IfErr result (λ error. RefusesAttribute (end_of start text.now) text.now error) }
    // Each is a value that its property takes, with numbers that a style sheet can say.
    ensures kept { IfOk result (λ all. All IsKept all.items) }
    // It is never refused for how many they are.
    ensures few { IfErr result (λ error. IsWithinLimit error) }
{
    let end = start.saturating_add(text.len());
    match declarations_within(alloc, Within::Attribute, end, text) {
        Ok((all, _)) => Ok(all),
        Err(stop) => Err(told(end, stop)),
    }
}

/// The refusal with its place in an input of which the text's end is at `end`.
pub fn told(end: usize, stop: Stop<'_>) -> CssError
    ensures { Tells end stop.entry result }
{
    match stop {
        Stop::Refused(kind, left) => CssError::Refused {
            kind,
            place: end.saturating_sub(left.len()),
        },
        Stop::Memory => CssError::Memory,
    }
}

/// Reads declarations up to where they end, for readers of sheets. `end` is the place of the end of the text in the
/// input. What is left begins with the `}` of their rule, or is nothing in a style attribute.
pub fn declarations_within(
    alloc: Global,
    within: Within,
    end: usize,
    text: &str,
) -> Result<(Declarations, &str), Stop<'_>>
    ensures read { Gives (λ d. (d.0.items, d.1.now)) result (readers.declarations within end text.now) }
    ensures kept { IfOk result (λ d. All IsKept d.0.items) }
    ensures shorter { IfOk result (λ d. length d.1.now ≤ length text.now) }
{
    answered(alloc, within, end, text)
}

#[tactic(auto, unfolding(crate::specs::Declarations::declarations))]
fn answered(
    alloc: Global,
    within: Within,
    end: usize,
    text: &str,
) -> Result<(Declarations, &str), Stop<'_>>
    ensures read { Gives (λ d. (d.0.items, d.1.now)) result (readers.declarations within end text.now) }
    ensures shorter { IfOk result (λ d. length d.1.now ≤ length text.now) }
{
    let (_, rest) = gap(text)?;
    behind_gap(alloc, within, end, rest)
}

fn behind_gap(
    alloc: Global,
    within: Within,
    end: usize,
    text: &str,
) -> Result<(Declarations, &str), Stop<'_>>
    ensures read { Gives (λ d. (d.0.items, d.1.now)) result (repeat (readers.goes_on within) (readers.turn within end) [] text.now) }
    ensures shorter { IfOk result (λ d. length d.1.now ≤ length text.now) }
{
    let mut all = Declarations::new(alloc);
    let mut rest = text;
    while !list_ends(within, rest) {
        rest = turn(alloc, within, end, &mut all, rest)?;
    }
    Ok((all, rest))
}

/// Do declarations end here? In a rule they end before a `}`, elsewhere with the text.
pub fn list_ends(within: Within, text: &str) -> bool
    ensures { result ≡ readers.list_ends within text.now }
{
    match within {
        Within::Attribute => text.is_empty(),
        Within::Rule { .. } => starts("}", text),
    }
}

// A declaration, or a `;` where there is none, and the gap behind it.
fn turn<'a>(
    alloc: Global,
    within: Within,
    end: usize,
    all: &mut Declarations,
    text: &'a str,
) -> Result<&'a str, Stop<'a>>
    ensures read { Gives (λ rest. (all.new.items, rest.now)) result (readers.turn within end all.old.items text.now) }
    ensures shorter { IfOk result (λ rest. length rest.now < length text.now) }
{
    let rest = item(alloc, within, end, all, text)?;
    Ok(gap(rest)?.1)
}

#[tactic(auto, using(reading::proofs::Shorter::strip_strict))]
fn item<'a>(
    alloc: Global,
    within: Within,
    end: usize,
    all: &mut Declarations,
    text: &'a str,
) -> Result<&'a str, Stop<'a>>
    ensures read { Gives (λ rest. (all.new.items, rest.now)) result (readers.item within end all.old.items text.now) }
    ensures shorter { IfOk result (λ rest. length rest.now < length text.now) }
{
    if starts(";", text) {
        Ok(strip(";", text)?)
    } else {
        declaration(alloc, within, end, all, text)
    }
}

#[tactic(auto, unfolding(crate::specs::Declarations::declaration))]
fn declaration<'a>(
    alloc: Global,
    within: Within,
    end: usize,
    all: &mut Declarations,
    text: &'a str,
) -> Result<&'a str, Stop<'a>>
    ensures read { Gives (λ rest. (all.new.items, rest.now)) result (readers.declaration within end all.old.items text.now) }
    ensures shorter { IfOk result (λ rest. length rest.now < length text.now) }
{
    if is_rule(within) && starts("@", text) {
        return Err(Stop::Refused(Refusal::Unsupported, text.as_bytes()));
    }
    let (stated, rest) = next_stated(alloc, within, text)?;
    judge(alloc, within, end, stated, all)?;
    Ok(rest)
}

pub(crate) fn is_rule(within: Within) -> bool
    ensures { result ≡ readers.is_rule within }
{
    matches!(within, Within::Rule { .. })
}

#[tactic(auto, unfolding(crate::specs::Declarations::stated))]
pub(crate) fn next_stated(
    alloc: Global,
    within: Within,
    text: &str,
) -> Result<(Stated<'_>, &str), Stop<'_>>
    ensures read { Gives (λ s. (stated_of s.0, s.1.now)) result (spelled (readers.stated within) text.now) }
    ensures shorter { IfOk result (λ s. length s.1.now < length text.now) }
{
    let (name, rest) = property_name(text)?;
    let rest = strip(":", gap(rest)?.1)?;
    let (value, rest) = value(alloc, within, rest)?;
    let stated = Stated {
        name,
        value,
        left: text,
    };
    Ok((stated, rest))
}

// The name of a property. A `-` before a number begins one that doesn't go on.
#[tactic(auto, unfolding(crate::specs::Declarations::property_name, reading::specs::Readers::starts))]
fn property_name(text: &str) -> Result<(&str, &str), &[u8]>
    ensures read { Answers (λ n. (n.0.now, n.1.now)) result (readers.property_name text.now) }
    ensures shorter { IfOk result (λ n. length n.1.now < length text.now) }
{
    if name_ahead(text) {
        Ok(name(text))
    } else {
        match strip("-", text) {
            Ok(rest) => Err(rest.as_bytes()),
            Err(_) => Err(text.as_bytes()),
        }
    }
}

// Puts what the declaration declares behind the others, unless it is refused.
#[tactic(auto, unfolding(crate::specs::Judging::expanded))]
fn judge<'a>(
    alloc: Global,
    within: Within,
    end: usize,
    stated: Stated<'a>,
    all: &mut Declarations,
) -> Result<(), Stop<'a>>
    ensures { Gives (λ u. all.new.items) result (readers.with_stated within end all.old.items (stated_of stated.entry)) }
{
    let Stated { name, value, left } = stated;
    let meaning = meaning_of(name);
    let tokens = value.tokens.as_slice();
    if is_unsupported(name, value.has_var, meaning, tokens) {
        return Err(Stop::Refused(Refusal::Unsupported, left.as_bytes()));
    }
    if let Some(at) = refused_at(within, value.at_sign) {
        return Err(Stop::Refused(Refusal::Unsupported, at.as_bytes()));
    }
    let manner = Manner {
        important: value.important,
        place: end.saturating_sub(left.len()),
    };
    declare(alloc, meaning, tokens, manner, all)?;
    counted(within, left, all.len())
}

// In a sheet an `@` begins a rule that the profile doesn't have.
pub(crate) fn refused_at(within: Within, at_sign: Option<&str>) -> Option<&str>
    ensures { text_of result ≡ readers.refused_at within (text_of at_sign.entry) }
{
    match within {
        Within::Attribute => None,
        Within::Rule { .. } => at_sign,
    }
}

fn counted(within: Within, left: &str, count: usize) -> Result<(), Stop<'_>>
    ensures { (all : List declaration_type.Declaration) → length all ≡ count → Gives (λ u. all) result (readers.counted within left.now all) }
{
    if are_too_many(within, count) {
        Err(Stop::Refused(Refusal::TooManyRules, left.as_bytes()))
    } else {
        Ok(())
    }
}

// The limit on declarations; style attributes don't count.
fn are_too_many(within: Within, count: usize) -> bool
    ensures { result ≡ readers.are_too_many within count }
{
    match within {
        Within::Attribute => false,
        Within::Rule { selectors, before } => {
            before.saturating_add(selectors.saturating_mul(count)) > MOST_DECLARATIONS
        }
    }
}
