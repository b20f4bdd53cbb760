//! How specific selectors are.

ghost use Rattle.std.specs.Prelude.{◌≡◌, ◌+◌, length};
ghost use Rattle.css_types.specs.Rule.{compound_of, compounds_of, selector_of};
ghost use Rattle.css_sheet.specs.Specificity as definitions;

use crate::counts::Specificity;
use css_types::{Part, Selector};

/// How specific the selector is. Takes no memory.
pub fn specificity(s: &Selector) -> Specificity
    ensures { result ≡ definitions.specificity_of (selector_of s.now) }
{
    Specificity {
        ids: ids(&s.parts),
        classes: classes(&s.parts),
        types: types(&s.parts),
    }
}

#[tactic(auto, using(crate::proofs::Counting::ids_go_on, crate::proofs::Counting::ids_end))]
fn ids(parts: &[Part]) -> u32
    ensures { result ≡ definitions.ids_in (compounds_of parts.now) }
{
    let mut count = 0;
    for part in parts {
        count = more(count, ids_of(part));
    }
    count
}

#[tactic(auto, using(crate::proofs::Counting::classes_go_on, crate::proofs::Counting::classes_end))]
fn classes(parts: &[Part]) -> u32
    ensures { result ≡ definitions.classes_in (compounds_of parts.now) }
{
    let mut count = 0;
    for part in parts {
        count = more(count, classes_of(part));
    }
    count
}

#[tactic(auto, using(crate::proofs::Counting::types_go_on, crate::proofs::Counting::types_end))]
fn types(parts: &[Part]) -> u32
    ensures { result ≡ definitions.types_in (compounds_of parts.now) }
{
    let mut count = 0;
    for part in parts {
        count = more(count, types_of(part));
    }
    count
}

#[tactic(auto, using(crate::proofs::Counting::texts_length))]
fn ids_of(part: &Part) -> usize
    ensures { result ≡ length (compound_of part.now).ids }
{
    part.ids.len()
}

#[tactic(auto, using(crate::proofs::Counting::texts_length))]
fn classes_of(part: &Part) -> usize
    ensures { result ≡ length (compound_of part.now).classes }
{
    part.classes.len()
}

fn types_of(part: &Part) -> usize
    ensures { result ≡ definitions.count_of (compound_of part.now).tag }
{
    match part.tag {
        Some(_) => 1,
        None => 0,
    }
}

// A count with more, up to the last number.
fn more(count: u32, add: usize) -> u32
    ensures { result ≡ definitions.held (count + add) }
{
    match u32::try_from(add) {
        Ok(add) => count.saturating_add(add),
        Err(_) => u32::MAX,
    }
}
