//! Sheets: rules one after the other (CSS 2, 4.1.7 and 5.2.1).

ghost use Rattle.std.specs.Prelude.{◌≡◌, ◌<◌, IfErr, IfOk, length, map, not};
ghost use Rattle.std.specs.List.{All};
ghost use Rattle.reading.specs.Readers.{mapped, repeat};
ghost use Rattle.reading.specs.Stop.{Gives, end_of};
ghost use Rattle.css_values.specs.Error.{Told};
ghost use Rattle.css_values.specs.Value.{no_items};
ghost use Rattle.css_sheet.specs.Answered.{IsRuled, IsTheSheet, RefusesSheet};
ghost use Rattle.css_types.specs.Rule.{rulings_of, selector_of};
ghost use Rattle.css_sheet.specs.Sheet as readers;
ghost use Rattle.css_sheet.specs.Views.{sheet_of, PutsRule, PutsRules};

use crate::heads::rule_heads;
use css_tokens::gap;
use css_types::{Declarations, Rule, Rules, Selector};
use css_values::{CssError, Stop, Within, declarations_within, told};
use reading::strip;
use std::alloc::Global;
use std::rc::Rc;

/// What is read of the sheets so far: their rules, and the count of their declarations, each counted for each
/// selector of its rule.
#[derive(Debug, Drop)]
pub(crate) struct Sheet {
    pub rules: Rules,
    pub declared: usize,
}

/// Reads a sheet whose text ends at `end`, behind the rules of others.
#[tactic(auto, unfolding(crate::specs::Sheet::sheet))]
pub(crate) fn read_into<'a>(
    alloc: Global,
    end: usize,
    sheet: &mut Sheet,
    text: &'a str,
) -> Result<&'a str, Stop<'a>>
    ensures read { Gives (λ rest. (sheet_of sheet.new, rest.now)) result (readers.sheet end (sheet_of sheet.old) text.now) }
{
    let (_, rest) = gap(text)?;
    behind_gap(alloc, end, sheet, rest)
}

fn behind_gap<'a>(
    alloc: Global,
    end: usize,
    sheet: &mut Sheet,
    text: &'a str,
) -> Result<&'a str, Stop<'a>>
    ensures { Gives (λ rest. (sheet_of sheet.new, rest.now)) result (repeat readers.goes_on (readers.turn end) (sheet_of sheet.old) text.now) }
{
    let mut rest = text;
    while has_rest(rest) {
        rest = turn(alloc, end, sheet, rest)?;
    }
    Ok(rest)
}

fn has_rest(text: &str) -> bool
    ensures { result ≡ not (no_items text.now) }
{
    !text.is_empty()
}

// A rule with each of its selectors, and the gap behind it.
fn turn<'a>(
    alloc: Global,
    end: usize,
    sheet: &mut Sheet,
    text: &'a str,
) -> Result<&'a str, Stop<'a>>
    ensures read { Gives (λ rest. (sheet_of sheet.new, rest.now)) result (readers.turn end (sheet_of sheet.old) text.now) }
    ensures shorter { IfOk result (λ rest. length rest.now < length text.now) }
{
    let rest = rule(alloc, end, sheet, text)?;
    Ok(gap(rest)?.1)
}

fn rule<'a>(
    alloc: Global,
    end: usize,
    sheet: &mut Sheet,
    text: &'a str,
) -> Result<&'a str, Stop<'a>>
    ensures read { Gives (λ rest. (sheet_of sheet.new, rest.now)) result (readers.rule end (sheet_of sheet.old) text.now) }
    ensures shorter { IfOk result (λ rest. length rest.now < length text.now) }
{
    let (selectors, rest) = rule_heads(alloc, sheet.rules.len(), text)?;
    block(alloc, end, sheet, selectors, rest)
}

// The declarations of these selectors, up to the `}`.
#[tactic(auto, using(reading::proofs::Shorter::strip_strict))]
fn block<'a>(
    alloc: Global,
    end: usize,
    sheet: &mut Sheet,
    selectors: Vec<Selector>,
    text: &'a str,
) -> Result<&'a str, Stop<'a>>
    ensures read { Gives (λ rest. (sheet_of sheet.new, rest.now)) result (readers.block end (sheet_of sheet.old) (map selector_of selectors.items) text.now) }
    ensures shorter { IfOk result (λ rest. length rest.now < length text.now) }
{
    let within = Within::Rule {
        selectors: selectors.len(),
        before: sheet.declared,
    };
    let (declared, rest) = declarations_within(alloc, within, end, text)?;
    let rest = strip("}", rest)?;
    put_rules(alloc, sheet, selectors, declared)?;
    Ok(rest)
}

// Each selector with all the declarations, which their rules share.
fn put_rules(
    alloc: Global,
    sheet: &mut Sheet,
    selectors: Vec<Selector>,
    declared: Declarations,
) -> Result<(), Stop<'static>>
    ensures { PutsRules result (sheet_of sheet.new) (readers.with_rules (sheet_of sheet.old) (map selector_of selectors.items) declared.items) }
{
    let count = selectors.len().saturating_mul(declared.len());
    let shared = Rc::new(alloc, declared)?;
    sheet.rules.reserve(selectors.len())?;
    for selector in selectors {
        put_rule(&mut sheet.rules, selector, &shared)?;
    }
    sheet.declared = sheet.declared.saturating_add(count);
    Ok(())
}

fn put_rule(
    rules: &mut Rules,
    selector: Selector,
    shared: &Rc<Declarations>,
) -> Result<(), Stop<'static>>
    ensures { PutsRule result rules.old.items rules.new.items (record { selector = selector_of selector; declarations = shared.now.value.items }) }
{
    let declarations = shared.clone()?;
    rules.push(Rule {
        selector,
        declarations,
    })?;
    Ok(())
}

/// A sheet without rules.
pub(crate) fn empty(alloc: Global) -> Sheet
    ensures { sheet_of result ≡ readers.empty }
{
    Sheet {
        rules: Rules::new(alloc),
        declared: 0,
    }
}

/// Reads a sheet: a rule for each selector, in order. `start` is the place of the text's first byte in the input, and
/// the places of declarations and refusals are in that input. They are counted back from the text's end, which is held
/// at the last number of usize.
#[tactic(auto, using(crate::proofs::AnsweredLaws::told_sheet, crate::proofs::AnsweredLaws::told_no_sheet))]
pub fn read_sheet(alloc: Global, text: &str, start: usize) -> Result<Rules, CssError>
    // The answer is that of the reading: the rules, or the refusal with its place.
    ensures read { Told (end_of start text.now) (λ rules. rulings_of rules.items) result (mapped (λ s. s.rules) (readers.sheet (end_of start text.now) readers.empty) text.now) }
    // The text is a sheet of these rules and of no others; where it is refused it is none.
    ensures found { IfOk result (λ rules. IsTheSheet start text.now (rulings_of rules.items)) }
    ensures refused { IfErr result (λ error. RefusesSheet start text.now error) }
    // Each selector has a part, and each declaration is a value that its property takes.
    ensures ruled { IfOk result (λ rules. All IsRuled (rulings_of rules.items)) }
{
    answer_sheet(alloc, text, start)
}

// The reading of a whole sheet, with its places.
fn answer_sheet(alloc: Global, text: &str, start: usize) -> Result<Rules, CssError>
    ensures { Told (end_of start text.now) (λ rules. rulings_of rules.items) result (mapped (λ s. s.rules) (readers.sheet (end_of start text.now) readers.empty) text.now) }
{
    let end = start.saturating_add(text.len());
    let mut sheet = empty(alloc);
    match read_into(alloc, end, &mut sheet, text) {
        Ok(_) => Ok(sheet.rules),
        Err(stop) => Err(told(end, stop)),
    }
}
