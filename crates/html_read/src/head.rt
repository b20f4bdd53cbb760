//! The head of a document: its style sheets, and what is read and ignored.

ghost use Rattle.std.specs.Prelude.{◌≡◌, ◌<◌, ◌≤◌, length, IfOk};
ghost use Rattle.reading.specs.Stop.{Gives};
ghost use Rattle.html_read.specs.Reading as readers;
ghost use Rattle.html_read.specs.Values.{text_at, sheets_of};

use crate::node::PlacedText;
use crate::tags::start_of;
use html_tokens::{RawEnd, Refusal, comment, end_of, misc, raw};
use letters::Letters;
use reading::{Stop, starts, strip, strip_either_case, white, white_ahead};
use std::alloc::Global;

/// The style sheets of the head and what stands behind it, if there is one.
#[tactic(auto, unfolding(crate::specs::Reading::maybe_head))]
pub(crate) fn maybe_head(
    alloc: Global,
    size: usize,
    text: &str,
) -> Result<(Vec<PlacedText>, &str), Stop<'_, Refusal>>
    ensures { Gives (λ h. (sheets_of h.0.items, h.1.now)) result (readers.maybe_head size text.now) }
{
    if !ahead("<h", text) {
        return Ok((Vec::new(alloc), text));
    }
    let (sheets, rest) = head(alloc, size, text)?;
    Ok((sheets, misc("<!", rest)?))
}

#[tactic(auto, unfolding(crate::specs::Reading::head))]
fn head(
    alloc: Global,
    size: usize,
    text: &str,
) -> Result<(Vec<PlacedText>, &str), Stop<'_, Refusal>>
    ensures { Gives (λ h. (sheets_of h.0.items, h.1.now)) result (readers.head size text.now) }
{
    let (_, rest) = start_of(alloc, size, "<head", false, text)?;
    let (sheets, rest) = head_items(alloc, size, rest)?;
    Ok((sheets, end_of("head", rest)?))
}

#[tactic(auto, unfolding(crate::specs::Reading::head_items))]
fn head_items(
    alloc: Global,
    size: usize,
    text: &str,
) -> Result<(Vec<PlacedText>, &str), Stop<'_, Refusal>>
    ensures { Gives (λ h. (sheets_of h.0.items, h.1.now)) result (readers.head_items size text.now) }
{
    let mut sheets = Vec::new(alloc);
    let mut rest = text;
    while !starts("</", rest) {
        rest = head_turn(alloc, size, &mut sheets, rest)?;
    }
    Ok((sheets, rest))
}

// What comes next in the head.
#[tactic(auto, unfolding(crate::specs::Reading::head_turn, crate::specs::Reading::meta, reading::specs::Readers::after))]
fn head_turn<'a>(
    alloc: Global,
    size: usize,
    sheets: &mut Vec<PlacedText>,
    text: &'a str,
) -> Result<&'a str, Stop<'a, Refusal>>
    ensures read { Gives (λ rest. (sheets_of sheets.new.items, rest.now)) result (readers.head_turn size (sheets_of sheets.old.items) text.now) }
    ensures shorter { IfOk result (λ rest. length rest.now < length text.now) }
{
    if white_ahead(text) {
        Ok(white(text)?)
    } else if starts("<!", text) {
        Ok(comment(text)?)
    } else if ahead("<t", text) {
        title(alloc, size, text)
    } else if ahead("<m", text) {
        Ok(start_of(alloc, size, "<meta", true, text)?.1)
    } else if ahead("<s", text) {
        let (sheet, rest) = style(alloc, size, text)?;
        sheets.push(sheet)?;
        Ok(rest)
    } else {
        Err(Stop::Refused(Refusal::Syntax, strip("<", text)?.as_bytes()))
    }
}

fn ahead(word: &str, text: &str) -> bool
    ensures { result ≡ readers.ahead word.now text.now }
{
    strip_either_case(word, text).is_ok()
}

#[tactic(auto, unfolding(crate::specs::Reading::title))]
fn title(alloc: Global, size: usize, text: &str) -> Result<&str, Stop<'_, Refusal>>
    ensures read { Gives (λ rest. (tt, rest.now)) result (readers.title size text.now) }
    ensures shorter { IfOk result (λ rest. length rest.now < length text.now) }
{
    let (_, rest) = start_of(alloc, size, "<title", false, text)?;
    Ok(raw(RawEnd::Title, rest)?.1)
}

#[tactic(auto, unfolding(crate::specs::Reading::style))]
fn style(alloc: Global, size: usize, text: &str) -> Result<(PlacedText, &str), Stop<'_, Refusal>>
    ensures read { Gives (λ s. (text_at s.0, s.1.now)) result (readers.style size text.now) }
    ensures shorter { IfOk result (λ s. length s.1.now < length text.now) }
{
    let (_, rest) = start_of(alloc, size, "<style", false, text)?;
    sheet(alloc, size, rest)
}

// The text of a style sheet up to its end tag.
#[tactic(auto, unfolding(crate::specs::Reading::sheet))]
fn sheet(alloc: Global, size: usize, text: &str) -> Result<(PlacedText, &str), Stop<'_, Refusal>>
    ensures read { Gives (λ s. (text_at s.0, s.1.now)) result (readers.sheet size text.now) }
    ensures shorter { IfOk result (λ s. length s.1.now ≤ length text.now) }
{
    let (inside, rest) = raw(RawEnd::Style, text)?;
    let sheet = PlacedText {
        text: Letters::from_str(alloc, inside)?,
        place: size.saturating_sub(text.len()),
    };
    Ok((sheet, rest))
}
