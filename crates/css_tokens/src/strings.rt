//! Strings (CSS Syntax 3, 4.3.5).

ghost use Rattle.std.specs.Prelude.{◌≡◌, ◌<◌, ◌∷◌, true, false, length, IfOk};
ghost use Rattle.reading.specs.Readers as reading;
ghost use Rattle.reading.specs.Readers.{Answers};
ghost use Rattle.css_tokens.specs.Characters as characters;
ghost use Rattle.css_tokens.specs.Cuts.{ReadsPiece, ReadsString};
ghost use Rattle.css_tokens.specs.Lexing as readers;

use crate::cuts::cut_before;
use reading::first;

// Does a quote come next?
pub(crate) fn quote_ahead(text: &str) -> bool
    ensures { result ≡ reading.next_is characters.is_quote text.now }
{
    match first(text) {
        Some((byte, _)) => byte == b'"' || byte == b'\'',
        None => false,
    }
}

/// A string, as it is written between its quotes, and the text behind it.
#[tactic(auto, unfolding(crate::specs::Lexing::string, reading::specs::Readers::one_of))]
pub(crate) fn string(text: &str) -> Result<(&str, &str), &[u8]>
    ensures read { Answers (λ s. (s.0.now, s.1.now)) result (readers.string text.now) }
    ensures shorter { IfOk result (λ s. length s.1.now < length text.now) }
{
    match first(text) {
        Some((quote @ (b'"' | b'\''), inside)) => string_in(quote, inside),
        _ => Err(text.as_bytes()),
    }
}

// A string after its first quote, as it is written up to the quote that ends it, and the text after that.
fn string_in(quote: u8, text: &str) -> Result<(&str, &str), &[u8]>
    requires { characters.is_quote quote ≡ true }
    ensures read { Answers (λ s. (s.0.now, s.1.now)) result (readers.string (quote ∷ text.now)) }
    ensures shorter { IfOk result (λ s. length s.1.now < length text.now) }
{
    let (inside, rest) = cut_before(text, string_end(quote, text.as_bytes())?);
    Ok((inside, behind_quote(quote, rest)))
}

// What stands behind the quote.
fn behind_quote(quote: u8, text: &str) -> &str
    requires quote { characters.is_quote quote ≡ true }
    requires next { readers.in_string quote text.now ≡ false }
    ensures { text.now ≡ quote ∷ result.now }
{
    match first(text) {
        Some((_, after)) => after,
        None => text,
    }
}

// The bytes from the quote on that ends the string.
fn string_end(quote: u8, bytes: &[u8]) -> Result<&[u8], &[u8]>
    ensures { ReadsString quote bytes.now result }
{
    let mut rest = bytes;
    while in_string(quote, rest) {
        rest = piece(rest)?;
    }
    Ok(rest)
}

// The quote isn't next.
fn in_string(quote: u8, bytes: &[u8]) -> bool
    ensures { result ≡ readers.in_string quote bytes.now }
{
    match bytes {
        [] => true,
        [byte, ..] => *byte != quote,
    }
}

// What stands behind a byte of the string, or behind two where the first one is a backslash.
fn piece(bytes: &[u8]) -> Result<&[u8], &[u8]>
    ensures { ReadsPiece bytes.now result }
{
    let Some((byte, rest)) = bytes.split_first() else {
        return Err(bytes);
    };
    if *byte == b'\\' {
        match rest.split_first() {
            Some((_, after)) => Ok(after),
            None => Err(rest),
        }
    } else if is_line_break(*byte) {
        Err(bytes)
    } else {
        Ok(rest)
    }
}

fn is_line_break(byte: u8) -> bool
    ensures { result ≡ characters.is_line_break byte }
{
    matches!(byte, b'\n' | b'\x0c' | b'\r')
}
