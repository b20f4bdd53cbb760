//! Text, with comments in it.

ghost use Rattle.std.specs.Prelude.{◌≡◌, ◌<◌, ◌≤◌, [], true, length, IfOk};
ghost use Rattle.std.specs.String.{string_bytes};
ghost use Rattle.reading.specs.Readers as reading;
ghost use Rattle.html_tokens.specs.Characters.{in_repertoire};
ghost use Rattle.html_tokens.specs.Error.{spelled};
ghost use Rattle.reading.specs.Stop.{Gives};
ghost use Rattle.html_tokens.specs.Lexing.{comment, reference};
ghost use Rattle.html_tokens.specs.Pieces.{Joins, JoinsRun, PutsPiece, RunsOrStops, PutsLetter, is_letter_next};
ghost use Rattle.html_tokens.specs.Text as readers;

use crate::characters::{first_char, in_repertoire};
use crate::error::Refusal;
use crate::lexing::comment;
use crate::plain::plain_count;
use crate::references::reference;
use letters::Letters;
use reading::{Stop, front_of, starts};
use std::alloc::Global;

/// The letters up to the next tag.
#[tactic(auto, unfolding(crate::specs::Text::gap))]
pub fn gap(alloc: Global, text: &str) -> Result<(Letters, &str), Stop<'_, Refusal>>
    ensures read { Gives (λ g. (string_bytes g.0, g.1.now)) result (readers.gap text.now) }
    ensures shorter { IfOk result (λ g. length g.1.now ≤ length text.now) }
{
    let mut letters = Letters::new(alloc);
    let mut rest = text;
    while in_text(rest) {
        rest = piece(&mut letters, rest)?;
    }
    Ok((letters, rest))
}

// Text goes on here: the bytes are at no tag and not at their end.
#[tactic(auto, unfolding(reading::specs::Readers::starts, reading::specs::Readers::strip))]
fn in_text(text: &str) -> bool
    ensures { result ≡ readers.in_text text.now }
{
    match text.as_bytes() {
        [] => false,
        [b'<', b'!', ..] => true,
        [b'<', ..] => false,
        [_, ..] => true,
    }
}

// A comment, a reference, or characters up to one of these or a tag, put behind the letters.
fn piece<'a>(letters: &mut Letters, text: &'a str) -> Result<&'a str, Stop<'a, Refusal>>
    requires { readers.in_text text.now ≡ true }
    ensures read { Joins readers.in_text readers.text_piece (string_bytes letters.old) (string_bytes letters.new) text.now result }
    ensures shorter { IfOk result (λ rest. length rest.now < length text.now) }
{
    if starts("<", text) {
        skip_comment(text)
    } else if starts("&", text) {
        put_reference(letters, text)
    } else {
        characters(letters, text)
    }
}

// A comment, of which nothing is put.
fn skip_comment(text: &str) -> Result<&str, Stop<'_, Refusal>>
    ensures read { PutsPiece (spelled (reading.mapped (λ u. []) comment)) [] [] text.now result }
    ensures shorter { IfOk result (λ rest. length rest.now < length text.now) }
{
    Ok(comment(text)?)
}

// A reference to a character of the repertoire, put behind the letters.
#[tactic(auto, unfolding(crate::specs::Text::checked))]
fn put_reference<'a>(letters: &mut Letters, text: &'a str) -> Result<&'a str, Stop<'a, Refusal>>
    ensures read { PutsPiece (readers.checked reference) (string_bytes letters.old) (string_bytes letters.new) text.now result }
    ensures shorter { IfOk result (λ rest. length rest.now < length text.now) }
{
    let (c, rest) = reference(text)?;
    if !in_repertoire(c) {
        return Err(Stop::Refused(Refusal::Character, text.as_bytes()));
    }
    letters.push(c)?;
    Ok(rest)
}

// Characters of the repertoire up to a comment, a reference or a tag, put behind the letters.
fn characters<'a>(letters: &mut Letters, text: &'a str) -> Result<&'a str, Stop<'a, Refusal>>
    requires { is_letter_next text.now ≡ true }
    ensures read { Joins readers.in_text readers.text_piece (string_bytes letters.old) (string_bytes letters.new) text.now result }
    ensures shorter { IfOk result (λ rest. length rest.now < length text.now) }
{
    let rest = characters_end(text)?;
    letters.push_str(front_of(text, rest))?;
    Ok(rest)
}

// What stands behind characters of the repertoire other than `<` and `&`.
#[tactic(auto, using(crate::proofs::Letters::letters_start, crate::proofs::Letters::letter_shorter, crate::proofs::Letters::letters_are_some))]
fn characters_end(text: &str) -> Result<&str, Stop<'_, Refusal>>
    requires { is_letter_next text.now ≡ true }
    ensures read { RunsOrStops readers.in_text readers.text_piece text.now result }
    ensures shorter { IfOk result (λ rest. length rest.now < length text.now) }
{
    let mut rest = text;
    while letter_ahead(rest) {
        rest = plain_end(letter(rest)?);
    }
    Ok(rest)
}

// What stands behind the characters in front that are plain.
fn plain_end(text: &str) -> &str
    ensures run { JoinsRun readers.in_text readers.text_piece text.now result.now }
    ensures shorter { length result.now ≤ length text.now }
{
    text.split_at(plain_count(text.as_bytes())).1
}

// A byte comes next that is neither `<` nor `&`.
fn letter_ahead(text: &str) -> bool
    ensures { result ≡ is_letter_next text.now }
{
    match text.as_bytes() {
        [] => false,
        [byte, ..] => *byte != b'<' && *byte != b'&',
    }
}

// What stands behind a character of the repertoire.
fn letter(text: &str) -> Result<&str, Stop<'_, Refusal>>
    requires { is_letter_next text.now ≡ true }
    ensures { PutsLetter readers.text_piece text.now result }
{
    let Some((c, rest)) = first_char(text) else {
        return Err(Stop::Refused(Refusal::Syntax, text.as_bytes()));
    };
    if in_repertoire(c) {
        Ok(rest)
    } else {
        Err(Stop::Refused(Refusal::Character, text.as_bytes()))
    }
}
