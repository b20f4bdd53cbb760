//! Character references.

ghost use Rattle.std.specs.Prelude.{◌≡◌, ◌≤◌, ◌<◌, ◌+◌, ◌*◌, length, nat_lt, nat_le, ◌&&◌, ◌||◌, IfOk, IfSome};
ghost use Rattle.std.specs.Char.{digit_value};
ghost use lib.Utf8.{scalar};
ghost use Rattle.reading.specs.Readers as reading;
ghost use Rattle.reading.specs.Readers.{Answers};
ghost use Rattle.html_tokens.specs.Characters.{entities};
ghost use Rattle.html_tokens.specs.Lexing as readers;
ghost use Rattle.html_tokens.specs.Pieces.{GoesOnWith};

use crate::entity::ENTITIES;
use reading::{first, one_word, starts, strip};

/// A reference, as the character that it means.
#[tactic(auto, unfolding(crate::specs::Lexing::reference), using(crate::proofs::Runs::amp_shorter))]
pub fn reference(text: &str) -> Result<(char, &str), &[u8]>
    ensures read { Answers (λ c. (c.0, c.1.now)) result (readers.reference text.now) }
    ensures shorter { IfOk result (λ c. length c.1.now < length text.now) }
{
    let rest = strip("&", text)?;
    if starts("#", rest) {
        number_reference(rest)
    } else {
        entity(rest)
    }
}

// The name of a reference.
#[tactic(auto, unfolding(crate::specs::Characters::entities))]
fn entity(text: &str) -> Result<(char, &str), &[u8]>
    ensures read { Answers (λ c. (c.0, c.1.now)) result (reading.one_word entities text.now) }
    ensures shorter { IfOk result (λ c. length c.1.now ≤ length text.now) }
{
    one_word(&ENTITIES, text)
}

// A number behind `#`.
#[tactic(auto, unfolding(crate::specs::Lexing::number_reference, reading::specs::Readers::one_of))]
fn number_reference(text: &str) -> Result<(char, &str), &[u8]>
    ensures read { Answers (λ c. (c.0, c.1.now)) result (readers.number_reference text.now) }
    ensures shorter { IfOk result (λ c. length c.1.now ≤ length text.now) }
{
    let rest = strip("#", text)?;
    match first(rest) {
        Some((b'x' | b'X', digits)) => scalar_number(16, 6, digits),
        _ => scalar_number(10, 7, rest),
    }
}

// One to `most` digits of the base, and `;`.
#[tactic(auto, unfolding(crate::specs::Lexing::scalar_number, reading::specs::Readers::one_of))]
fn scalar_number(base: u32, most: u32, text: &str) -> Result<(char, &str), &[u8]>
    requires base { base ≤ 16 }
    requires most { 0 < most }
    ensures read { Answers (λ c. (c.0, c.1.now)) result (readers.scalar_number base most text.now) }
    ensures shorter { IfOk result (λ c. length c.1.now ≤ length text.now) }
{
    let Some((byte, after)) = first(text) else {
        return Err(text.as_bytes());
    };
    let digit = digit_value(byte);
    if digit < base {
        number_from(base, most - 1, digit, after)
    } else {
        Err(text.as_bytes())
    }
}

// At most `most` digits more behind those that stand for `value`, and `;`.
#[tactic(auto, using(crate::proofs::Numbers::number_goes_on, crate::proofs::Numbers::number_stops, crate::proofs::Numbers::number_ends))]
fn number_from(base: u32, most: u32, value: u32, text: &str) -> Result<(char, &str), &[u8]>
    requires base { base ≤ 16 }
    requires value { value ≤ 0x10FFFF }
    ensures read { Answers (λ c. (c.0, c.1.now)) result (readers.number_from base most value text.now) }
    ensures shorter { IfOk result (λ c. length c.1.now ≤ length text.now) }
{
    let mut value = value;
    let mut rest = text;
    for read in 0..most {
        match next_digit(base, most - 1 - read, value, rest) {
            Some((next, after)) => {
                value = next;
                rest = after;
            }
            None => return number_end(value, rest),
        }
    }
    number_end(value, rest)
}

// The value with the next digit behind it, where a number that is a Unicode scalar value begins so.
#[tactic(auto, using(crate::proofs::Numbers::digit_none, crate::proofs::Numbers::digit_other))]
fn next_digit(base: u32, left: u32, value: u32, text: &str) -> Option<(u32, &str)>
    requires base { base ≤ 16 }
    requires value { value ≤ 0x10FFFF }
    ensures read { GoesOnWith base left value text.now result }
    ensures low { IfSome result (λ d. d.0 ≤ 0x10FFFF) }
    ensures shorter { IfSome result (λ d. length d.1.now ≤ length text.now) }
{
    let (byte, after) = first(text)?;
    let digit = digit_value(byte);
    let next = base * value + digit;
    if may_follow(base, left, digit, next) {
        Some((next, after))
    } else {
        None
    }
}

// Whether a scalar value begins so, with `left` digits more at most.
fn may_follow(base: u32, left: u32, digit: u32, next: u32) -> bool
    ensures { result ≡ (nat_lt digit base && nat_le next 0x10FFFF && (scalar next || nat_lt 0 left)) }
{
    digit < base && next <= 0x10_FFFF && (is_scalar(next) || 0 < left)
}

// Whether the number is a Unicode scalar value.
fn is_scalar(value: u32) -> bool
    ensures { result ≡ scalar value }
{
    char::from_u32(value).is_some()
}

#[tactic(auto, unfolding(crate::specs::Lexing::number_end))]
fn number_end(value: u32, text: &str) -> Result<(char, &str), &[u8]>
    ensures read { Answers (λ c. (c.0, c.1.now)) result (readers.number_end value text.now) }
    ensures shorter { IfOk result (λ c. length c.1.now ≤ length text.now) }
{
    match char::from_u32(value) {
        Some(c) => Ok((c, strip(";", text)?)),
        None => Err(text.as_bytes()),
    }
}

// The value of a digit or a letter, from 0 for `0` to 35 for `z`; 36 for all else.
fn digit_value(byte: u8) -> u32
    ensures { result ≡ digit_value byte }
{
    match char::from(byte).to_digit(36) {
        Some(value) => value,
        None => 36,
    }
}
