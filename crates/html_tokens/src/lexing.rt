//! Names, comments, white space between them, and the ends of tags: what refuses by `Syntax` alone.

ghost use Rattle.std.specs.Prelude.{◌≡◌, ◌≤◌, ◌<◌, [], length, IfOk};
ghost use Rattle.reading.specs.Readers as reading;
ghost use Rattle.reading.specs.Readers.{Answers};
ghost use Rattle.reading.specs.Names.{lowered};
ghost use Rattle.html_tokens.specs.Characters.{is_name_byte};
ghost use Rattle.reading.specs.Cuts.{ReadsFront};
ghost use Rattle.html_tokens.specs.Lexing as readers;

use crate::characters::is_name_byte;
use crate::raw_text::{RawEnd, raw};
use reading::{first, front_of, spaces, starts, strip, strip_either_case, white, white_ahead};

/// A name as it is written.
#[tactic(auto, unfolding(crate::specs::Lexing::name, reading::specs::Readers::one_of), using(reading::proofs::Running::ends_behind, crate::proofs::Runs::name_read, crate::proofs::Runs::no_name))]
pub fn name(text: &str) -> Result<(&str, &str), &[u8]>
    ensures read { Answers (λ n. (lowered n.0.now, n.1.now)) result (readers.name text.now) }
    ensures shorter { IfOk result (λ n. length n.1.now < length text.now) }
{
    let Some((byte, after)) = first(text) else {
        return Err(text.as_bytes());
    };
    if !byte.is_ascii_alphabetic() {
        return Err(text.as_bytes());
    }
    let rest = name_end(after);
    Ok((front_of(text, rest), rest))
}

// What stands behind the bytes that a name may go on with.
#[tactic(auto, using(reading::proofs::Running::running_starts, reading::proofs::Running::running_goes_on, reading::proofs::Running::running_stops, reading::proofs::Running::running_ends, crate::proofs::Runs::name_bytes_are_ascii))]
fn name_end(text: &str) -> &str
    ensures { ReadsFront (reading.run_of is_name_byte text.now) text.now result.now }
{
    let mut rest = text;
    while let Some((byte, after)) = first(rest) {
        if !is_name_byte(byte) {
            break;
        }
        rest = after;
    }
    rest
}

/// A comment.
#[tactic(auto, unfolding(crate::specs::Lexing::comment, reading::specs::Readers::after), using(crate::proofs::Runs::comment_shorter))]
pub fn comment(text: &str) -> Result<&str, &[u8]>
    ensures read { Answers (λ rest. (tt, rest.now)) result (readers.comment text.now) }
    ensures shorter { IfOk result (λ rest. length rest.now < length text.now) }
{
    let inside = strip("<!--", text)?;
    Ok(raw(RawEnd::Comment, inside)?.1)
}

/// White space and comments, where a comment begins with `mark`.
#[tactic(auto, unfolding(crate::specs::Lexing::misc))]
pub fn misc<'a>(mark: &str, text: &'a str) -> Result<&'a str, &'a [u8]>
    ensures read { Answers (λ rest. (tt, rest.now)) result (readers.misc mark.now text.now) }
    ensures shorter { IfOk result (λ rest. length rest.now ≤ length text.now) }
{
    let mut rest = text;
    while in_misc(mark, rest) {
        rest = misc_piece(rest)?;
    }
    Ok(rest)
}

// White space or a comment comes next.
fn in_misc(mark: &str, text: &str) -> bool
    ensures { result ≡ readers.in_misc mark.now text.now }
{
    white_ahead(text) || starts(mark, text)
}

#[tactic(auto, unfolding(crate::specs::Lexing::misc_piece))]
fn misc_piece(text: &str) -> Result<&str, &[u8]>
    ensures read { Answers (λ rest. ([], rest.now)) result (readers.misc_piece text.now) }
    ensures shorter { IfOk result (λ rest. length rest.now < length text.now) }
{
    if white_ahead(text) {
        white(text)
    } else {
        comment(text)
    }
}

/// The doctype.
#[tactic(auto, unfolding(crate::specs::Lexing::doctype))]
pub fn doctype(text: &str) -> Result<&str, &[u8]>
    ensures { Answers (λ rest. (tt, rest.now)) result (readers.doctype text.now) }
{
    let rest = strip_either_case("<!doctype", text)?;
    let rest = spaces(white(rest)?);
    let rest = strip_either_case("html", rest)?;
    strip(">", spaces(rest))
}

/// The end of a start tag. Where `slash` says so a `/` may stand before the `>`.
#[tactic(auto, unfolding(crate::specs::Lexing::tag_end))]
pub fn tag_end(slash: bool, text: &str) -> Result<&str, &[u8]>
    ensures read { Answers (λ rest. (tt, rest.now)) result (readers.tag_end slash text.now) }
    ensures shorter { IfOk result (λ rest. length rest.now < length text.now) }
{
    if slash && starts("/", text) {
        strip("/>", text)
    } else {
        strip(">", text)
    }
}

/// The end tag of this name, in either case.
#[tactic(auto, unfolding(crate::specs::Lexing::end_of))]
pub fn end_of<'a>(word: &str, text: &'a str) -> Result<&'a str, &'a [u8]>
    ensures read { Answers (λ rest. (tt, rest.now)) result (readers.end_of word.now text.now) }
    ensures shorter { IfOk result (λ rest. length rest.now ≤ length text.now) }
{
    let rest = strip("</", text)?;
    let rest = strip_either_case(word, rest)?;
    strip(">", spaces(rest))
}

/// An end tag, as its name.
#[tactic(auto, unfolding(crate::specs::Lexing::end_name))]
pub fn end_name(text: &str) -> Result<(&str, &str), &[u8]>
    ensures read { Answers (λ n. (lowered n.0.now, n.1.now)) result (readers.end_name text.now) }
    ensures shorter { IfOk result (λ n. length n.1.now < length text.now) }
{
    let rest = strip("</", text)?;
    let (name, rest) = name(rest)?;
    Ok((name, strip(">", spaces(rest))?))
}
