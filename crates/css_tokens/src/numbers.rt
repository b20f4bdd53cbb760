//! Numbers, in hundredths (CSS Syntax 3, 4.3.12, without an exponent).

ghost use Rattle.std.specs.Prelude.{◌≡◌, ◌+◌, ◌*◌, ◌<◌, ◌≤◌, nat_lt, if◌then◌else◌, min, true, length, Ok};
ghost use Rattle.std.specs.Char.{is_ascii_digit};
ghost use Rattle.reading.specs.Readers as reading;
ghost use Rattle.reading.specs.Cuts.{ReadsFront};
ghost use Rattle.css_tokens.specs.Cuts.{Counts};
ghost use Rattle.css_tokens.specs.Numbers as readers;

use reading::{digit, first, strip};

/// Can a number be read here? A digit comes, or a point and a digit, behind a sign or none.
#[tactic(auto, using(crate::proofs::Counting::ahead_by_digit, crate::proofs::Counting::ahead_by_point))]
pub fn number_ahead(text: &str) -> bool
    ensures { result ≡ readers.number_ahead text.now }
{
    let (_, rest) = sign(text);
    digit_ahead(rest) || point_ahead(rest)
}

/// A number in hundredths, cut after the second decimal, as long as it can be, and the text behind it. One of more
/// than seven digits before the point counts as 9,999,999.99. Where none can be read it is 0, behind a sign or none.
pub fn number(text: &str) -> (i64, &str)
    ensures read { readers.number text.now ≡ Ok (result.0, result.1.now) }
    ensures shorter { length result.1.now ≤ length text.now }
    ensures ahead { readers.number_ahead text.now ≡ true → length result.1.now < length text.now }
{
    let (negative, rest) = sign(text);
    let (whole, rest) = whole(rest);
    let (decimals, rest) = decimals(rest);
    (signed(negative, hundredths_of(whole, decimals)), rest)
}

// Whether a `-` stands here, and the text behind a sign or none.
#[tactic(auto, unfolding(crate::specs::Numbers::sign, reading::specs::Readers::one_of))]
fn sign(text: &str) -> (bool, &str)
    ensures read { readers.sign text.now ≡ Ok (result.0, result.1.now) }
    ensures shorter { length result.1.now ≤ length text.now }
{
    match first(text) {
        Some((byte @ (b'+' | b'-'), rest)) => (byte == b'-', rest),
        _ => (false, text),
    }
}

#[tactic(auto, unfolding(reading::specs::Readers::one_of))]
fn digit_ahead(text: &str) -> bool
    ensures { result ≡ reading.next_is is_ascii_digit text.now }
{
    match first(text) {
        Some((byte, _)) => byte.is_ascii_digit(),
        None => false,
    }
}

// A point directly before a digit.
#[tactic(auto, unfolding(crate::specs::Numbers::point))]
fn point_ahead(text: &str) -> bool
    ensures { result ≡ reading.can_read readers.point text.now }
{
    match strip(".", text) {
        Ok(rest) => digit(rest).is_ok(),
        Err(_) => false,
    }
}

/// More than seven digits.
const MANY: u32 = 10_000_000;

// The number that the next digits stand for, or `MANY` where it is greater.
fn whole(text: &str) -> (u32, &str)
    ensures read { Counts (λ digits. min (readers.number_from 0 digits) 10000000) (reading.run_of is_ascii_digit text.now) result.0 result.1.now }
    ensures shorter { length result.1.now ≤ length text.now }
{
    let mut value = 0;
    let mut rest = text;
    while let Ok((byte, after)) = digit(rest) {
        value = MANY.min(10 * value + u32::from(byte - b'0'));
        rest = after;
    }
    (value, rest)
}

// The first two decimals behind a point, in hundredths, and the text behind all of them.
fn decimals(text: &str) -> (u32, &str)
    ensures read { Counts readers.first_decimals (readers.decimals text.now) result.0 result.1.now }
    ensures below { result.0 < 100 }
    ensures shorter { length result.1.now ≤ length text.now }
{
    let Ok(rest) = strip(".", text) else {
        return (0, text);
    };
    if digit_ahead(rest) {
        fraction(rest)
    } else {
        (0, text)
    }
}

// The first two of the digits after a decimal point, in hundredths, and the text after all of them.
fn fraction(text: &str) -> (u32, &str)
    ensures read { Counts readers.first_decimals (reading.run_of is_ascii_digit text.now) result.0 result.1.now }
    ensures below { result.0 < 100 }
    ensures shorter { length result.1.now ≤ length text.now }
{
    let Ok((tenths, rest)) = digit(text) else {
        return (0, text);
    };
    let tenths = 10 * u32::from(tenths - b'0');
    let Ok((hundredths, rest)) = digit(rest) else {
        return (tenths, rest);
    };
    (tenths + u32::from(hundredths - b'0'), behind_digits(rest))
}

fn behind_digits(text: &str) -> &str
    ensures read { ReadsFront (reading.run_of is_ascii_digit text.now) text.now result.now }
    ensures shorter { length result.now ≤ length text.now }
{
    let mut rest = text;
    while let Ok((_, after)) = digit(rest) {
        rest = after;
    }
    rest
}

// The hundredths of a number.
fn hundredths_of(whole: u32, decimals: u32) -> u32
    requires { decimals < 100 }
    ensures read { result ≡ (if nat_lt whole 10000000 then whole * 100 + decimals else 999999999) }
    ensures below { result < 1000000000 }
{
    if whole < MANY {
        100 * whole + decimals
    } else {
        999_999_999
    }
}

fn signed(negative: bool, hundredths: u32) -> i64
    ensures { result ≡ readers.signed negative hundredths }
{
    if negative {
        -i64::from(hundredths)
    } else {
        i64::from(hundredths)
    }
}
