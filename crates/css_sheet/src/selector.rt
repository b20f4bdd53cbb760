//! Selectors (Selectors 3, 8).

ghost use Rattle.std.specs.Prelude.{◌≡◌, ◌≤◌, ◌<◌, ◌||◌, ◌==◌, IfOk, length};
ghost use Rattle.reading.specs.Readers.{mapped, repeat};
ghost use Rattle.css_sheet.specs.Halt.{Reads, begun_of};
ghost use Rattle.css_types.specs.Rule.{compounds_of, selector_of};
ghost use Rattle.css_sheet.specs.Selector as readers;

use crate::compound::next_compound;
use crate::halt::{Halt, Stuck};
use css_tokens::gap;
use css_types::{Joint, Parts, Selector};
use reading::{first, starts, strip};
use std::alloc::Global;

/// A selector, and the text from its `,` or `{` on.
#[tactic(auto, unfolding(crate::specs::Selector::selector))]
pub(crate) fn next_selector(alloc: Global, text: &str) -> Result<(Selector, &str), Halt<'_>>
    ensures read { Reads (λ s. (selector_of s.0, s.1.now)) result (readers.selector text.now) }
    ensures shorter { IfOk result (λ s. length s.1.now ≤ length text.now) }
{
    let mut parts = Parts::with_capacity(alloc, 1)?;
    let (white, rest) = with_compound(alloc, Joint::Descendant, &mut parts, text)?;
    joined(alloc, parts, white, rest)
}

// The compounds behind these.
fn joined(
    alloc: Global,
    parts: Parts,
    white: bool,
    text: &str,
) -> Result<(Selector, &str), Halt<'_>>
    ensures read { Reads (λ s. (selector_of s.0, s.1.now)) result (mapped (λ end_. end_.compounds) (repeat readers.selector_goes_on readers.turn (begun_of parts.items white)) text.now) }
    ensures shorter { IfOk result (λ s. length s.1.now ≤ length text.now) }
{
    let mut parts = parts;
    let mut white = white;
    let mut rest = text;
    while !selector_ends(rest) {
        let (is_white, after) = turn(alloc, &mut parts, white, rest)?;
        white = is_white;
        rest = after;
    }
    Ok((Selector { parts }, rest))
}

fn selector_ends(text: &str) -> bool
    ensures { result ≡ readers.selector_ends text.now }
{
    match first(text) {
        Some((byte, _)) => byte == b',' || byte == b'{',
        None => false,
    }
}

// A compound more, behind a `>` or white space, and whether white space stands behind it.
fn turn<'a>(
    alloc: Global,
    parts: &mut Parts,
    white: bool,
    text: &'a str,
) -> Result<(bool, &'a str), Halt<'a>>
    ensures read { Reads (λ t. (begun_of parts.new.items t.0, t.1.now)) result (readers.turn (begun_of parts.old.items white) text.now) }
    ensures shorter { IfOk result (λ t. length t.1.now < length text.now) }
{
    if starts(">", text) {
        let (_, rest) = gap(strip(">", text)?)?;
        with_compound(alloc, Joint::Child, parts, rest)
    } else if white {
        with_compound(alloc, Joint::Descendant, parts, text)
    } else {
        Err(Halt::Refused(Stuck::Stuck, text.as_bytes()))
    }
}

fn with_compound<'a>(
    alloc: Global,
    joint: Joint,
    parts: &mut Parts,
    text: &'a str,
) -> Result<(bool, &'a str), Halt<'a>>
    ensures read { Reads (λ t. (begun_of parts.new.items t.0, t.1.now)) result (readers.with_compound joint (compounds_of parts.old.items) text.now) }
    ensures shorter { IfOk result (λ t. length t.1.now < length text.now) }
{
    let (part, rest) = next_compound(alloc, joint, text)?;
    parts.push(part)?;
    Ok(gap(rest)?)
}
