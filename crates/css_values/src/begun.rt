//! What is read of a value so far, token by token (CSS Syntax 3, 5.4.7 to 5.4.9).

ghost use Rattle.std.specs.Prelude.{◌≡◌, ◌<◌, [], ◌∷◌, length, IfOk};
ghost use Rattle.css_tokens.specs.Tokens.{lexeme_of};
ghost use Rattle.reading.specs.Stop.{Gives};
ghost use Rattle.css_values.specs.Error.{spelled};
ghost use Rattle.css_values.specs.Reading.{begun_of, closing_of, closings_of, openings_of, text_of, IsClosing, Puts};
ghost use Rattle.css_values.specs.Value as values;

use crate::error::Stop;
use css_tokens::{Token, gap, next_token};
use reading::{same_name, strip};
use std::alloc::Global;

/// A bracket that is open.
#[derive(Clone, Copy)]
pub(crate) enum Bracket {
    Round,
    Square,
}

/// What is read of a value so far.
#[derive(Drop)]
pub(crate) struct Begun<'a> {
    /// The brackets that are open, the innermost last.
    pub brackets: Vec<Bracket>,
    /// The tokens outside brackets; of a bracket the token that opens it alone.
    pub tokens: Vec<Token<'a>>,
    /// `var(` stands in it.
    pub has_var: bool,
    /// The text from its first `@` on.
    pub at_sign: Option<&'a str>,
}

/// Nothing so far.
pub(crate) fn begin<'a>(alloc: Global) -> Begun<'a>
    ensures { begun_of result ≡ values.begun }
{
    Begun {
        brackets: Vec::new(alloc),
        tokens: Vec::new(alloc),
        has_var: false,
        at_sign: None,
    }
}

/// Reads a token or the end of a bracket, and the gap behind it.
pub(crate) fn turn<'a>(begun: &mut Begun<'a>, text: &'a str) -> Result<&'a str, Stop<'a>>
    ensures read { Gives (λ rest. (begun_of begun.new, rest.now)) result (spelled (values.turn (begun_of begun.old)) text.now) }
    ensures shorter { IfOk result (λ rest. length rest.now < length text.now) }
{
    let rest = piece(begun, text)?;
    Ok(gap(rest)?.1)
}

fn piece<'a>(begun: &mut Begun<'a>, text: &'a str) -> Result<&'a str, Stop<'a>>
    ensures read { Gives (λ rest. (begun_of begun.new, rest.now)) result (spelled (values.piece (begun_of begun.old)) text.now) }
    ensures shorter { IfOk result (λ rest. length rest.now < length text.now) }
{
    if let Some(rest) = closing(&begun.brackets, text) {
        begun.brackets.pop();
        return Ok(rest);
    }
    let (token, rest) = next_token(text)?;
    put(begun, token, text)?;
    Ok(rest)
}

// The text behind what closes the innermost bracket, where that comes next.
fn closing<'a>(brackets: &[Bracket], text: &'a str) -> Option<&'a str>
    ensures { IsClosing (closings_of brackets.now) text.now result }
{
    let (innermost, _) = brackets.split_last()?;
    match strip(closer(*innermost), text) {
        Ok(rest) => Some(rest),
        Err(_) => None,
    }
}

// What closes a bracket.
fn closer(bracket: Bracket) -> &'static str
    ensures { result.now ≡ closing_of bracket ∷ [] }
{
    match bracket {
        Bracket::Round => ")",
        Bracket::Square => "]",
    }
}

// Puts a token behind what is read; `text` begins with it.
fn put<'a>(begun: &mut Begun<'a>, token: Token<'a>, text: &'a str) -> Result<(), Stop<'a>>
    ensures { Puts result (values.with_lexeme text.now (begun_of begun.old) (lexeme_of token.entry)) (begun_of begun.new) }
{
    if begun.brackets.is_empty() {
        begun.tokens.push(token)?;
    }
    if let Some(bracket) = opened(token) {
        begun.brackets.push(bracket)?;
    }
    begun.has_var = begun.has_var || is_var(token);
    begun.at_sign = or_first(begun.at_sign, is_at(token), text);
    Ok(())
}

// The bracket that a token opens.
fn opened(token: Token<'_>) -> Option<Bracket>
    ensures { openings_of result ≡ values.closers_of (lexeme_of token.entry) }
{
    match token {
        Token::Function(_) | Token::Round => Some(Bracket::Round),
        Token::Square => Some(Bracket::Square),
        _ => None,
    }
}

fn is_var(token: Token<'_>) -> bool
    ensures { result ≡ values.is_var (lexeme_of token.entry) }
{
    match token {
        Token::Function(name) => same_name("var", name),
        _ => false,
    }
}

fn is_at(token: Token<'_>) -> bool
    ensures { result ≡ values.is_at (lexeme_of token.entry) }
{
    match token {
        Token::Sign(byte) => byte == b'@',
        _ => false,
    }
}

// The first such place, where `text` may be one.
fn or_first<'a>(first: Option<&'a str>, is: bool, text: &'a str) -> Option<&'a str>
    ensures { text_of result ≡ values.or_first (text_of first.entry) is text.now }
{
    if first.is_none() && is {
        Some(text)
    } else {
        first
    }
}
