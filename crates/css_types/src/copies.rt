//! Copies of rules, which stand for the same rules and share their declarations.

ghost use Rattle.std.specs.Prelude.{◌≡◌, map, option_map, IfOk};
ghost use Rattle.std.specs.String.{string_bytes};
ghost use Rattle.css_types.specs.Rule.{compound_of, compounds_of, selector_of, ruling_of, rulings_of};

use crate::lists::{Parts, Rules};
use crate::rule::{Part, Rule, Selector};
use letters::{LetterList, Letters};
use std::alloc::{AllocError, Global};

/// A copy of rules.
pub fn copy_of_rules(alloc: Global, rules: &[Rule]) -> Result<Rules, AllocError>
    ensures { IfOk result (λ own. rulings_of own.items ≡ rulings_of rules.now) }
{
    let mut own = Vec::with_capacity(alloc, rules.len())?;
    for rule in rules {
        own.push(copy_of_rule(alloc, rule)?)?;
    }
    Ok(own)
}

/// A copy of a rule, which shares its declarations.
pub fn copy_of_rule(alloc: Global, rule: &Rule) -> Result<Rule, AllocError>
    ensures { IfOk result (λ own. ruling_of own ≡ ruling_of rule.now) }
{
    Ok(Rule {
        selector: copy_of_selector(alloc, &rule.selector)?,
        declarations: rule.declarations.clone()?,
    })
}

/// A copy of a selector.
pub fn copy_of_selector(alloc: Global, selector: &Selector) -> Result<Selector, AllocError>
    ensures { IfOk result (λ own. selector_of own ≡ selector_of selector.now) }
{
    Ok(Selector {
        parts: copy_of_parts(alloc, &selector.parts)?,
    })
}

fn copy_of_parts(alloc: Global, parts: &[Part]) -> Result<Parts, AllocError>
    ensures { IfOk result (λ own. compounds_of own.items ≡ compounds_of parts.now) }
{
    let mut own = Vec::with_capacity(alloc, parts.len())?;
    for part in parts {
        own.push(copy_of_part(alloc, part)?)?;
    }
    Ok(own)
}

fn copy_of_part(alloc: Global, part: &Part) -> Result<Part, AllocError>
    ensures { IfOk result (λ own. compound_of own ≡ compound_of part.now) }
{
    Ok(Part {
        joint: part.joint,
        tag: copy_of_tag(&part.tag)?,
        classes: copy_of_texts(alloc, &part.classes)?,
        ids: copy_of_texts(alloc, &part.ids)?,
    })
}

fn copy_of_tag(tag: &Option<Letters>) -> Result<Option<Letters>, AllocError>
    ensures { IfOk result (λ own. option_map (λ t. string_bytes t) own ≡ option_map (λ t. string_bytes t) tag.now) }
{
    match tag {
        Some(letters) => Ok(Some(letters.clone()?)),
        None => Ok(None),
    }
}

fn copy_of_texts(alloc: Global, texts: &[Letters]) -> Result<LetterList, AllocError>
    ensures { IfOk result (λ own. map (λ t. string_bytes t) own.items ≡ map (λ t. string_bytes t) texts.now) }
{
    let mut own = Vec::with_capacity(alloc, texts.len())?;
    for text in texts {
        own.push(text.clone()?)?;
    }
    Ok(own)
}
