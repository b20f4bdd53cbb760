//! Reading a value up to where its declaration ends (CSS Syntax 3, 5.4.7 to 5.4.9).

ghost use Rattle.std.specs.Prelude.{◌≡◌, ◌≤◌, ◌||◌, ◌==◌, length, map, IfOk};
ghost use Rattle.reading.specs.Readers as reading;
ghost use Rattle.css_tokens.specs.Tokens.{lexeme_of};
ghost use Rattle.reading.specs.Stop.{Gives};
ghost use Rattle.css_values.specs.Error.{spelled};
ghost use Rattle.css_values.specs.Reading.{begun_of, as_written};
ghost use Rattle.css_values.specs.Value as values;

use crate::begun::{Begun, begin, turn};
use crate::error::{Refusal, Stop};
use crate::within::Within;
use css_tokens::{Token, gap};
use reading::same_name;
use std::alloc::Global;

/// A value as it is written.
#[derive(Drop)]
pub(crate) struct Written<'a> {
    /// Its tokens outside brackets, without `!important`; of a bracket the token that opens it alone.
    pub tokens: Vec<Token<'a>>,
    /// It ends with `!important`.
    pub important: bool,
    /// `var(` stands in it, also within brackets.
    pub has_var: bool,
    /// The text from its first `@` on, also within brackets.
    pub at_sign: Option<&'a str>,
}

/// A value with balanced brackets, and the text from its end on: a `;`, in a rule also a `}`, elsewhere also the end
/// of the text, where no bracket is open. An empty value is refused at its end.
pub(crate) fn value(
    alloc: Global,
    within: Within,
    text: &str,
) -> Result<(Written<'_>, &str), Stop<'_>>
    ensures read { Gives (λ v. (as_written v.0, v.1.now)) result (spelled (values.value within) text.now) }
    ensures shorter { IfOk result (λ v. length v.1.now ≤ length text.now) }
{
    let (_, text) = gap(text)?;
    let mut begun = begin(alloc);
    let mut rest = text;
    while goes_on(within, &begun, rest) {
        rest = turn(&mut begun, rest)?;
    }
    Ok((finished(begun, rest)?, rest))
}

// A bracket is open, or the value doesn't end here.
fn goes_on(within: Within, begun: &Begun<'_>, text: &str) -> bool
    ensures { result ≡ values.goes_on within (begun_of begun.now) text.now }
{
    !(begun.brackets.is_empty() && value_ends(within, text))
}

fn value_ends(within: Within, text: &str) -> bool
    ensures { result ≡ values.value_ends within text.now }
{
    match within {
        Within::Attribute => text.is_empty() || semicolon_ahead(text),
        Within::Rule { .. } => semicolon_or_brace_ahead(text),
    }
}

fn semicolon_ahead(text: &str) -> bool
    ensures { result ≡ reading.next_is (λ byte. byte == 59) text.now }
{
    match text.as_bytes() {
        [] => false,
        [byte, ..] => *byte == b';',
    }
}

fn semicolon_or_brace_ahead(text: &str) -> bool
    ensures { result ≡ reading.next_is (λ byte. byte == 59 || byte == 125) text.now }
{
    match text.as_bytes() {
        [] => false,
        [byte, ..] => *byte == b';' || *byte == b'}',
    }
}

// What is read, without `!important`; nothing is no value.
fn finished<'a>(begun: Begun<'a>, rest: &'a str) -> Result<Written<'a>, Stop<'a>>
    ensures { Gives (λ w. (as_written w, rest.now)) result (spelled (values.finished (begun_of begun.entry)) rest.now) }
{
    let mut tokens = begun.tokens;
    let important = take_mark(&mut tokens);
    if tokens.is_empty() {
        return Err(Stop::Refused(Refusal::CssSyntax, rest.as_bytes()));
    }
    Ok(Written {
        tokens,
        important,
        has_var: begun.has_var,
        at_sign: begun.at_sign,
    })
}

// Takes `!important` away where it stands at the end; whether it did.
fn take_mark(tokens: &mut Vec<Token<'_>>) -> bool
    ensures marked { result ≡ values.ends_important (map lexeme_of tokens.old.items) }
    ensures left { map lexeme_of tokens.new.items ≡ values.without_mark (map lexeme_of tokens.old.items) }
{
    let important = ends_important(tokens);
    if important {
        tokens.truncate(tokens.len() - 2);
    }
    important
}

// The last two tokens are `!` and `important`.
fn ends_important(tokens: &[Token<'_>]) -> bool
    ensures { result ≡ values.ends_important (map lexeme_of tokens.now) }
{
    let Some((last, others)) = tokens.split_last() else {
        return false;
    };
    match others.split_last() {
        Some((mark, _)) => is_important(*mark, *last),
        None => false,
    }
}

fn is_important(mark: Token<'_>, name: Token<'_>) -> bool
    ensures { result ≡ values.is_important (lexeme_of mark.entry) (lexeme_of name.entry) }
{
    match (mark, name) {
        (Token::Sign(b'!'), Token::Name(name)) => same_name("important", name),
        _ => false,
    }
}
