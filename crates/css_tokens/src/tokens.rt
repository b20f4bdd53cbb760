//! Tokens (CSS Syntax 3, 4.3.1).

ghost use Rattle.std.specs.Prelude.{◌≡◌, ◌<◌, ◌≤◌, true, false, length, IfOk, Ok};
ghost use Rattle.reading.specs.Readers as reading;
ghost use Rattle.reading.specs.Readers.{Answers};
ghost use Rattle.css_tokens.specs.Characters as characters;
ghost use Rattle.css_tokens.specs.Lexing as readers;
ghost use Rattle.css_tokens.specs.Numbers as numbers;
ghost use Rattle.css_tokens.specs.Tokens.{lexeme_of};

use crate::names::{hash, hash_ahead, name, name_ahead};
use crate::numbers::{number, number_ahead};
use crate::strings::{quote_ahead, string};
use crate::token::Token;
use reading::{first, strip};

/// A token, or the `(` or `[` of a bracket, and the text behind it. The ends of brackets, braces and backslashes are
/// no tokens: they are refused in their place, an open string where its line ends.
#[tactic(auto, unfolding(crate::specs::Lexing::token))]
pub fn next_token(text: &str) -> Result<(Token<'_>, &str), &[u8]>
    ensures read { Answers (λ t. (lexeme_of t.0, t.1.now)) result (readers.token text.now) }
    ensures shorter { IfOk result (λ t. length t.1.now < length text.now) }
{
    if number_ahead(text) {
        Ok(numeric(text))
    } else if name_ahead(text) {
        Ok(named(text))
    } else if quote_ahead(text) {
        let (inside, rest) = string(text)?;
        Ok((Token::Quoted(inside), rest))
    } else if hash_ahead(text) {
        let (word, rest) = hash(text)?;
        Ok((Token::Hash(word), rest))
    } else {
        opening_or_sign(text)
    }
}

// A number, a percentage or a dimension.
#[tactic(auto, unfolding(crate::specs::Lexing::numeric, reading::specs::Readers::starts))]
fn numeric(text: &str) -> (Token<'_>, &str)
    requires { numbers.number_ahead text.now ≡ true }
    ensures read { readers.numeric text.now ≡ Ok (lexeme_of result.0, result.1.now) }
    ensures shorter { length result.1.now < length text.now }
{
    let (number, rest) = number(text);
    if let Ok(rest) = strip("%", rest) {
        (Token::Percentage(number), rest)
    } else if name_ahead(rest) {
        let (unit, rest) = name(rest);
        (Token::Dimension(number, unit), rest)
    } else {
        (Token::Number(number), rest)
    }
}

// A name, or a function with its `(`.
#[tactic(auto, unfolding(crate::specs::Lexing::named, reading::specs::Readers::starts))]
fn named(text: &str) -> (Token<'_>, &str)
    requires { readers.name_ahead text.now ≡ true }
    ensures read { readers.named text.now ≡ Ok (lexeme_of result.0, result.1.now) }
    ensures shorter { length result.1.now < length text.now }
{
    let (name, rest) = name(text);
    match strip("(", rest) {
        Ok(rest) => (Token::Function(name), rest),
        Err(_) => (Token::Name(name), rest),
    }
}

// The `(` or `[` of a bracket, or a sign.
#[tactic(auto, unfolding(crate::specs::Lexing::sign_token, reading::specs::Readers::starts, reading::specs::Readers::strip, reading::specs::Readers::one_of))]
fn opening_or_sign(text: &str) -> Result<(Token<'_>, &str), &[u8]>
    requires { reading.next_is characters.is_name_start text.now ≡ false }
    ensures read { Answers (λ t. (lexeme_of t.0, t.1.now)) result (readers.opening_or_sign text.now) }
    ensures shorter { IfOk result (λ t. length t.1.now < length text.now) }
{
    match first(text) {
        Some((b'(', rest)) => Ok((Token::Round, rest)),
        Some((b'[', rest)) => Ok((Token::Square, rest)),
        Some((byte, rest)) if !is_reserved(byte) => Ok((Token::Sign(byte), rest)),
        _ => Err(text.as_bytes()),
    }
}

// The signs that are no tokens.
fn is_reserved(byte: u8) -> bool
    ensures { result ≡ characters.is_reserved byte }
{
    matches!(byte, b'(' | b')' | b'[' | b'\\' | b']' | b'{' | b'}')
}
