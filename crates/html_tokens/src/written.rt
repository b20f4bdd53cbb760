//! The attributes of a tag as they stand in it.

ghost use Rattle.std.specs.Prelude.{◌≡◌, ◌≤◌, ◌<◌, ◌∷◌, true, false, length, IfOk, map};
ghost use Rattle.std.specs.Char.{encode_utf8};
ghost use Rattle.std.specs.String.{string_bytes};
ghost use Rattle.reading.specs.Readers as reading;
ghost use Rattle.html_tokens.specs.Characters.{is_letter};
ghost use Rattle.html_tokens.specs.Error.{spelled};
ghost use Rattle.reading.specs.Stop.{Gives};
ghost use Rattle.html_tokens.specs.Lexing as readers;
ghost use Rattle.html_tokens.specs.Lexing.{in_value, value_piece};
ghost use Rattle.html_tokens.specs.Pieces.{Joins, JoinsRun, PutsPiece, IsPlainNext};
ghost use Rattle.html_tokens.specs.Written.{attribute_of};

use crate::error::Refusal;
use crate::lexing::name;
use crate::references::reference;
use letters::Letters;
use reading::{Stop, first, front_of, spaces, starts, strip, white};
use std::alloc::Global;

/// An attribute: its name as it is written, its value with references replaced, and the bytes from its name on.
#[derive(Debug, Drop)]
pub struct WrittenAttribute<'a> {
    pub name: &'a str,
    pub value: Letters,
    pub left: &'a str,
}

/// The attributes of a tag, and white space behind them.
#[tactic(auto, unfolding(crate::specs::Lexing::attributes))]
pub fn attributes(
    alloc: Global,
    text: &str,
) -> Result<(Vec<WrittenAttribute<'_>>, &str), Stop<'_, Refusal>>
    ensures read { Gives (λ r. (map attribute_of r.0.items, r.1.now)) result (spelled readers.attributes text.now) }
    ensures shorter { IfOk result (λ r. length r.1.now ≤ length text.now) }
{
    let mut all = Vec::new(alloc);
    let mut rest = text;
    while name_ahead(rest) {
        let (attribute, after) = attribute(alloc, spaces(rest))?;
        all.push(attribute)?;
        rest = after;
    }
    Ok((all, spaces(rest)))
}

// White space, and behind it the first letter of a name.
#[tactic(auto, unfolding(crate::specs::Lexing::name_ahead))]
fn name_ahead(text: &str) -> bool
    ensures { result ≡ reading.can_read readers.name_ahead text.now }
{
    match white(text) {
        Ok(rest) => letter_ahead(spaces(rest)),
        Err(_) => false,
    }
}

#[tactic(auto, unfolding(reading::specs::Readers::one_of))]
fn letter_ahead(text: &str) -> bool
    ensures { result ≡ reading.can_read (reading.one_of is_letter) text.now }
{
    match first(text) {
        Some((byte, _)) => byte.is_ascii_alphabetic(),
        None => false,
    }
}

#[tactic(auto, unfolding(crate::specs::Lexing::attribute))]
fn attribute(alloc: Global, text: &str) -> Result<(WrittenAttribute<'_>, &str), Stop<'_, Refusal>>
    ensures read { Gives (λ r. (attribute_of r.0, r.1.now)) result (spelled readers.attribute text.now) }
    ensures shorter { IfOk result (λ r. length r.1.now < length text.now) }
{
    let (name, rest) = name(text)?;
    let (value, rest) = value(alloc, rest)?;
    let attribute = WrittenAttribute {
        name,
        value,
        left: text,
    };
    Ok((attribute, rest))
}

// The value of an attribute, empty where it has none.
#[tactic(auto, unfolding(crate::specs::Lexing::value, crate::specs::Lexing::equals))]
fn value(alloc: Global, text: &str) -> Result<(Letters, &str), Stop<'_, Refusal>>
    ensures read { Gives (λ v. (string_bytes v.0, v.1.now)) result (spelled readers.value text.now) }
    ensures shorter { IfOk result (λ v. length v.1.now ≤ length text.now) }
{
    match strip("=", spaces(text)) {
        Ok(rest) => quoted(alloc, spaces(rest)),
        Err(_) => Ok((Letters::new(alloc), text)),
    }
}

// A value between two quotes of one kind.
#[tactic(auto, unfolding(crate::specs::Lexing::quoted, reading::specs::Readers::one_of))]
fn quoted(alloc: Global, text: &str) -> Result<(Letters, &str), Stop<'_, Refusal>>
    ensures read { Gives (λ v. (string_bytes v.0, v.1.now)) result (spelled readers.quoted text.now) }
    ensures shorter { IfOk result (λ v. length v.1.now ≤ length text.now) }
{
    match first(text) {
        Some((quote @ (b'"' | b'\''), inside)) => value_in(alloc, quote, inside),
        _ => Err(Stop::Refused(Refusal::Syntax, text.as_bytes())),
    }
}

// A value up to its quote.
fn value_in(alloc: Global, quote: u8, text: &str) -> Result<(Letters, &str), Stop<'_, Refusal>>
    requires { readers.is_quote quote ≡ true }
    ensures read { Gives (λ v. (string_bytes v.0, v.1.now)) result (spelled (readers.value_in quote) text.now) }
    ensures shorter { IfOk result (λ v. length v.1.now ≤ length text.now) }
{
    let mut value = Letters::new(alloc);
    let mut rest = text;
    while in_value(quote, rest) {
        rest = piece(&mut value, quote, rest)?;
    }
    Ok((value, behind_quote(quote, rest)))
}

// The quote isn't next.
fn in_value(quote: u8, text: &str) -> bool
    requires { readers.is_quote quote ≡ true }
    ensures { result ≡ in_value quote text.now }
{
    match first(text) {
        Some((byte, _)) => byte != quote,
        None => true,
    }
}

// What stands behind the quote.
fn behind_quote(quote: u8, text: &str) -> &str
    requires quote { readers.is_quote quote ≡ true }
    requires next { in_value quote text.now ≡ false }
    ensures { text.now ≡ quote ∷ result.now }
{
    match first(text) {
        Some((_, after)) => after,
        None => text,
    }
}

// A reference, or characters up to one or to the quote, put behind the value.
fn piece<'a>(value: &mut Letters, quote: u8, text: &'a str) -> Result<&'a str, Stop<'a, Refusal>>
    requires quote { readers.is_quote quote ≡ true }
    requires next { in_value quote text.now ≡ true }
    ensures read { Joins (in_value quote) (spelled (value_piece quote)) (string_bytes value.old) (string_bytes value.new) text.now result }
    ensures shorter { IfOk result (λ rest. length rest.now < length text.now) }
{
    if starts("&", text) {
        put_reference(value, text)
    } else if text.is_empty() {
        Err(Stop::Refused(Refusal::Syntax, text.as_bytes()))
    } else {
        plain(value, quote, text)
    }
}

// A reference, put behind the value.
fn put_reference<'a>(value: &mut Letters, text: &'a str) -> Result<&'a str, Stop<'a, Refusal>>
    ensures read { PutsPiece (spelled (reading.mapped (λ c. encode_utf8 c) readers.reference)) (string_bytes value.old) (string_bytes value.new) text.now result }
    ensures shorter { IfOk result (λ rest. length rest.now < length text.now) }
{
    let (c, rest) = reference(text)?;
    value.push(c)?;
    Ok(rest)
}

// The characters up to the next quote or `&`, put behind the value.
fn plain<'a>(value: &mut Letters, quote: u8, text: &'a str) -> Result<&'a str, Stop<'a, Refusal>>
    requires quote { readers.is_quote quote ≡ true }
    requires next { IsPlainNext quote text.now }
    ensures read { Joins (in_value quote) (spelled (value_piece quote)) (string_bytes value.old) (string_bytes value.new) text.now result }
    ensures shorter { IfOk result (λ rest. length rest.now < length text.now) }
{
    let rest = plain_end(quote, text);
    value.push_str(front_of(text, rest))?;
    Ok(rest)
}

#[tactic(auto, using(crate::proofs::Joining::plain_starts, crate::proofs::Joining::plain_goes_on, crate::proofs::Joining::plain_cut, crate::proofs::Joining::plain_shorter, crate::proofs::Joining::plain_to_end))]
fn plain_end(quote: u8, text: &str) -> &str
    requires quote { readers.is_quote quote ≡ true }
    requires next { IsPlainNext quote text.now }
    ensures read { JoinsRun (in_value quote) (spelled (value_piece quote)) text.now result.now }
    ensures shorter { length result.now < length text.now }
{
    for at in 0..text.len() {
        if !is_plain(quote, text.as_bytes()[at]) {
            return text.split_at(at).1;
        }
    }
    text.split_at(text.len()).1
}

// A byte of a value that stands for itself.
fn is_plain(quote: u8, byte: u8) -> bool
    ensures { result ≡ readers.is_plain quote byte }
{
    byte != quote && byte != b'&'
}
