//! Compound selectors (Selectors 3, 4 and 6).

ghost use Rattle.std.specs.Prelude.{◌≡◌, ◌≤◌, ◌<◌, IfOk, length};
ghost use Rattle.reading.specs.Readers.{Answers, repeat};
ghost use Rattle.css_sheet.specs.Halt.{Reads, TellsBare, TellsLowered};
ghost use Rattle.css_types.specs.Rule.{compound_of};
ghost use Rattle.css_sheet.specs.Selector as readers;

use crate::halt::Halt;
use crate::names::{class, class_or_id_ahead, id, type_name};
use css_tokens::comment;
use css_types::{Joint, Part};
use letters::{LetterList, Letters};
use reading::starts;
use std::alloc::Global;

/// A compound: it begins with a class or an id, or with a type or `*`. Comments may stand between its parts.
#[tactic(auto, unfolding(crate::specs::Selector::compound))]
pub(crate) fn next_compound(
    alloc: Global,
    joint: Joint,
    text: &str,
) -> Result<(Part, &str), Halt<'_>>
    ensures read { Reads (λ c. (compound_of c.0, c.1.now)) result (readers.compound joint text.now) }
    ensures shorter { IfOk result (λ c. length c.1.now < length text.now) }
{
    if class_or_id_ahead(text) {
        let mut part = bare(alloc, joint, None)?;
        let rest = simple(alloc, &mut part, text)?;
        with_simples(alloc, part, rest)
    } else {
        let (part, rest) = typed(alloc, joint, text)?;
        with_simples(alloc, part, rest)
    }
}

// A type, or none for `*`, and comments behind it.
fn typed(alloc: Global, joint: Joint, text: &str) -> Result<(Part, &str), Halt<'_>>
    ensures read { Reads (λ c. (compound_of c.0, c.1.now)) result (readers.typed joint text.now) }
    ensures shorter { IfOk result (λ c. length c.1.now < length text.now) }
{
    let (name, rest) = type_name(text)?;
    let rest = comments(rest)?;
    Ok((bare(alloc, joint, name)?, rest))
}

// A compound without classes and ids.
fn bare(alloc: Global, joint: Joint, name: Option<&str>) -> Result<Part, Halt<'static>>
    ensures { TellsBare joint name.entry result }
{
    Ok(Part {
        joint,
        tag: small_letters(alloc, name)?,
        classes: LetterList::new(alloc),
        ids: LetterList::new(alloc),
    })
}

// The name in small letters.
fn small_letters(alloc: Global, name: Option<&str>) -> Result<Option<Letters>, Halt<'static>>
    ensures { TellsLowered name.entry result }
{
    let Some(name) = name else {
        return Ok(None);
    };
    let mut letters = Letters::from_str(alloc, name)?;
    letters.make_ascii_lowercase();
    Ok(Some(letters))
}

// The classes and ids behind it.
fn with_simples(alloc: Global, part: Part, text: &str) -> Result<(Part, &str), Halt<'_>>
    ensures read { Reads (λ c. (compound_of c.0, c.1.now)) result (repeat readers.goes_on readers.simple (compound_of part) text.now) }
    ensures shorter { IfOk result (λ c. length c.1.now ≤ length text.now) }
{
    let mut part = part;
    let mut rest = text;
    while class_or_id_ahead(rest) {
        rest = simple(alloc, &mut part, rest)?;
    }
    Ok((part, rest))
}

// A class or an id, and comments behind it.
fn simple<'a>(alloc: Global, part: &mut Part, text: &'a str) -> Result<&'a str, Halt<'a>>
    ensures read { Reads (λ rest. (compound_of part.new, rest.now)) result (readers.simple (compound_of part.old) text.now) }
    ensures shorter { IfOk result (λ rest. length rest.now < length text.now) }
{
    if starts(".", text) {
        let (name, rest) = class(text)?;
        part.classes.push(Letters::from_str(alloc, name)?)?;
        Ok(comments(rest)?)
    } else {
        let (name, rest) = id(text)?;
        part.ids.push(Letters::from_str(alloc, name)?)?;
        Ok(comments(rest)?)
    }
}

fn comments(text: &str) -> Result<&str, &[u8]>
    ensures read { Answers (λ rest. (tt, rest.now)) result (readers.comments text.now) }
    ensures shorter { IfOk result (λ rest. length rest.now ≤ length text.now) }
{
    let mut rest = text;
    while starts("/*", rest) {
        rest = comment(rest)?;
    }
    Ok(rest)
}
