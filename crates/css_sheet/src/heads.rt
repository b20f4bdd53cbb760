//! The selectors of a rule, up to its `{`. Each makes a rule of its own.

ghost use Rattle.std.specs.Prelude.{◌≡◌, Bool, ◌≤◌, ◌<◌, IfOk, length, map};
ghost use Rattle.reading.specs.Readers.{Answers, next_is, telling};
ghost use Rattle.reading.specs.Stop.{Gives};
ghost use Rattle.css_types.specs.Rule.{selector_of};
ghost use Rattle.css_sheet.specs.Selector as selectors_read;
ghost use Rattle.css_sheet.specs.Sheet as readers;
ghost use Rattle.css_sheet.specs.Views.{heads_of, TellsCannot};

use crate::halt::Halt;
use crate::selector::next_selector;
use css_tokens::gap;
use css_types::Selector;
use css_values::{Refusal, Stop};
use reading::{starts, strip};
use std::alloc::Global;

/// The greatest count of rules in the sheets of a document.
const MOST_RULES: usize = 4_096;

/// Reads the selectors of a rule, where `rules` rules stand before them, and the `{` behind them (Selectors 3, 4 to 6).
/// What is left stands behind it.
#[tactic(auto, unfolding(crate::specs::Sheet::heads))]
pub fn rule_heads(
    alloc: Global,
    rules: usize,
    text: &str,
) -> Result<(Vec<Selector>, &str), Stop<'_>>
    ensures read { Gives (λ h. (map selector_of h.0.items, h.1.now)) result (readers.heads rules text.now) }
    ensures shorter { IfOk result (λ h. length h.1.now ≤ length text.now) }
{
    let mut selectors = Vec::new(alloc);
    let mut opened = false;
    let mut rest = text;
    while !opened {
        let (is_opened, after) = head_turn(alloc, rules, &mut selectors, rest)?;
        opened = is_opened;
        rest = after;
    }
    Ok((selectors, rest))
}

// A selector more, and whether the `{` stands behind it.
fn head_turn<'a>(
    alloc: Global,
    rules: usize,
    selectors: &mut Vec<Selector>,
    text: &'a str,
) -> Result<(bool, &'a str), Stop<'a>>
    ensures read { (opened : Bool) → Gives (λ t. (heads_of selectors.new.items t.0, t.1.now)) result (readers.head_turn rules (heads_of selectors.old.items opened) text.now) }
    ensures shorter { IfOk result (λ t. length t.1.now < length text.now) }
{
    let (_, rest) = gap(text)?;
    let rest = counted(alloc, rules, selectors, rest)?;
    Ok(behind_selector(rest)?)
}

// A selector more, up to the limit.
fn counted<'a>(
    alloc: Global,
    rules: usize,
    selectors: &mut Vec<Selector>,
    text: &'a str,
) -> Result<&'a str, Stop<'a>>
    ensures read { (opened : Bool) → Gives (λ rest. (map selector_of selectors.new.items, rest.now)) result (readers.next_selector rules (heads_of selectors.old.items opened) text.now) }
    ensures shorter { IfOk result (λ rest. length rest.now ≤ length text.now) }
{
    let (selector, rest) = told_selector(alloc, text)?;
    selectors.push(selector)?;
    if rules.saturating_add(selectors.len()) > MOST_RULES {
        Err(Stop::Refused(Refusal::TooManyRules, text.as_bytes()))
    } else {
        Ok(rest)
    }
}

fn told_selector(alloc: Global, text: &str) -> Result<(Selector, &str), Stop<'_>>
    ensures read { Gives (λ s. (selector_of s.0, s.1.now)) result (telling readers.cannot selectors_read.selector text.now) }
    ensures shorter { IfOk result (λ s. length s.1.now ≤ length text.now) }
{
    match next_selector(alloc, text) {
        Ok(found) => Ok(found),
        Err(halt) => Err(cannot(halt)),
    }
}

// A selector doesn't go on with what is left: the signs of selectors and rules that the profile doesn't have are
// unsupported.
fn cannot(halt: Halt<'_>) -> Stop<'_>
    ensures { TellsCannot halt.entry result }
{
    match halt {
        Halt::Refused(_, left) if of_others_ahead(left) => Stop::Refused(
            Refusal::Unsupported,
            left,
        ),
        Halt::Refused(_, left) => Stop::Refused(Refusal::CssSyntax, left),
        Halt::Memory => Stop::Memory,
    }
}

fn of_others_ahead(left: &[u8]) -> bool
    ensures { result ≡ next_is readers.is_of_others left.now }
{
    match left {
        [] => false,
        [byte, ..] => matches!(*byte, b'@' | b':' | b'[' | b'+' | b'~'),
    }
}

// Whether the `{` stands here, and the text behind it or behind a `,`.
#[tactic(auto, using(reading::proofs::Shorter::strip_strict))]
fn behind_selector(text: &str) -> Result<(bool, &str), &[u8]>
    ensures read { Answers (λ t. (t.0, t.1.now)) result (readers.opening text.now) }
    ensures shorter { IfOk result (λ t. length t.1.now < length text.now) }
{
    if starts(",", text) {
        Ok((false, strip(",", text)?))
    } else {
        Ok((true, strip("{", text)?))
    }
}
