//! What follows a document.

ghost use Rattle.std.specs.Prelude.{◌≡◌, ◌≤◌, length, drop, Ok, IfOk};
ghost use Rattle.reading.specs.Readers as reading;
ghost use Rattle.reading.specs.Readers.{Answers};
ghost use Rattle.std.specs.Str.{IsUtf8};
ghost use Rattle.html_read.specs.Error.{TellsTail};
ghost use Rattle.html_read.specs.Reading as readers;

use crate::error::HtmlError;
use html_tokens::{Refusal, misc};
use reading::first;

/// Reads what follows a document that ends at the place `end`: before a script the rest of the line,
/// without one white space and comments alone. The answer is the place behind it.
#[tactic(auto, using(crate::proofs::Tails::tail_within, crate::proofs::Tails::tail_rest, crate::proofs::Tails::tail_utf8))]
pub fn read_tail(bytes: &[u8], end: usize, script: bool) -> Result<usize, HtmlError>
    requires end { end ≤ length bytes.now }
    requires utf8 { IsUtf8 (drop end bytes.now) }
    ensures read { TellsTail (length bytes.now) result (readers.tail script (drop end bytes.now)) }
    // The place lies within the bytes, behind the document. What stands behind it is what was left, a text of its own.
    ensures within { IfOk result (λ place. (end ≤ place) × (place ≤ length bytes.now)) }
    ensures rest { IfOk result (λ place. readers.tail script (drop end bytes.now) ≡ Ok (tt, drop place bytes.now)) }
    ensures behind { IfOk result (λ place. IsUtf8 (drop place bytes.now)) }
{
    answer_tail(bytes, end, script)
}

fn answer_tail(bytes: &[u8], end: usize, script: bool) -> Result<usize, HtmlError>
    requires end { end ≤ length bytes.now }
    requires utf8 { IsUtf8 (drop end bytes.now) }
    ensures { TellsTail (length bytes.now) result (readers.tail script (drop end bytes.now)) }
{
    let Ok(text) = str::from_utf8(bytes.split_at(end).1) else {
        return Ok(bytes.len());
    };
    match tail(script, text) {
        Ok(rest) => Ok(bytes.len().saturating_sub(rest.len())),
        Err(left) => Err(HtmlError::Refused {
            kind: Refusal::Syntax,
            place: bytes.len().saturating_sub(left.len()),
        }),
    }
}

#[tactic(auto, unfolding(crate::specs::Reading::tail))]
fn tail(script: bool, text: &str) -> Result<&str, &[u8]>
    ensures { Answers (λ rest. (tt, rest.now)) result (readers.tail script text.now) }
{
    if script {
        line_end(blanks(text))
    } else {
        nothing(misc("<", text)?)
    }
}

// What stands behind spaces, tabs and CR.
#[tactic(auto, unfolding(reading::specs::Readers::skip))]
fn blanks(text: &str) -> &str
    ensures read { reading.skip readers.is_blank text.now ≡ Ok (tt, result.now) }
    ensures shorter { length result.now ≤ length text.now }
{
    let mut rest = text;
    while let Some((b' ' | b'\t' | b'\r', after)) = first(rest) {
        rest = after;
    }
    rest
}

// The end of a line, or of the text.
fn line_end(text: &str) -> Result<&str, &[u8]>
    ensures { Answers (λ rest. (tt, rest.now)) result (readers.line_end text.now) }
{
    match first(text) {
        Some((b'\n', after)) => Ok(after),
        _ => nothing(text),
    }
}

fn nothing(text: &str) -> Result<&str, &[u8]>
    ensures { Answers (λ rest. (tt, rest.now)) result (readers.nothing text.now) }
{
    if text.is_empty() {
        Ok(text)
    } else {
        Err(text.as_bytes())
    }
}
