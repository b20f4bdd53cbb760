//! What a line of a probe asks, read from its first byte to its last.

ghost use Rattle.std.specs.Prelude.{◌≡◌, ◌^◌, ◌<◌, IfOk, Ok, pos, unsigned_abs};
ghost use Rattle.reading.specs.Readers as reading;
ghost use Rattle.reading.specs.Decimals.{more_digits, number};
ghost use Rattle.reading.specs.Readers.{Answers};
ghost use Rattle.hit_caret.specs.ProbeLine as readers;

use crate::probes::Probe;
use reading::{decimal, digit, one_word, starts, strip};

/// The word with which a line begins.
#[derive(Clone, Copy, PartialEq, Eq)]
pub(crate) enum Word {
    Point,
    Caret,
}

/// The words, as they stand in lines.
pub(crate) static WORDS: [(&str, Word); 2] = [("point", Word::Point), ("caret", Word::Caret)];

/// What a line asks, and what stands behind that.
#[tactic(auto, unfolding(crate::specs::ProbeLine::probe))]
pub(crate) fn probe_of_line(line: &str) -> Result<(Probe, &str), &[u8]>
    ensures { Answers (λ p. (p.0, p.1.now)) result (readers.probe line.now) }
{
    let (word, text) = first_word(line)?;
    let probe = arguments(word, text)?;
    Ok(probe)
}

#[tactic(auto, unfolding(crate::specs::ProbeLine::words))]
fn first_word(text: &str) -> Result<(Word, &str), &[u8]>
    ensures { Answers (λ w. (w.0, w.1.now)) result (reading.one_word readers.words text.now) }
{
    one_word(&WORDS, text)
}

// What stands behind the word.
#[tactic(auto, unfolding(crate::specs::ProbeLine::arguments))]
fn arguments(word: Word, text: &str) -> Result<(Probe, &str), &[u8]>
    ensures { Answers (λ p. (p.0, p.1.now)) result (readers.arguments word text.now) }
{
    match word {
        Word::Point => point(text),
        Word::Caret => caret(text),
    }
}

#[tactic(auto, unfolding(crate::specs::ProbeLine::point))]
fn point(text: &str) -> Result<(Probe, &str), &[u8]>
    ensures { Answers (λ p. (p.0, p.1.now)) result (readers.point text.now) }
{
    let (x, behind) = coordinate(text)?;
    let (y, left) = coordinate(behind)?;
    Ok((Probe::At { x, y }, left))
}

#[tactic(auto, unfolding(crate::specs::ProbeLine::caret))]
fn caret(text: &str) -> Result<(Probe, &str), &[u8]>
    ensures { Answers (λ p. (p.0, p.1.now)) result (readers.caret text.now) }
{
    let (node, behind) = argument(text)?;
    let (place, left) = argument(behind)?;
    Ok((Probe::Caret { node, place }, left))
}

// A space, and a number of one to seven digits.
#[tactic(auto, unfolding(crate::specs::ProbeLine::argument, reading::specs::Readers::after))]
fn argument(text: &str) -> Result<(u32, &str), &[u8]>
    ensures { Answers (λ n. (n.0, n.1.now)) result (readers.argument text.now) }
{
    let digits = strip(" ", text)?;
    let number = decimal(7, digits)?;
    Ok(number)
}

// A space, and a number of one to ten digits, which may be below zero.
#[tactic(auto, unfolding(crate::specs::ProbeLine::coordinate, reading::specs::Readers::after))]
fn coordinate(text: &str) -> Result<(i64, &str), &[u8]>
    ensures { Answers (λ n. (n.0, n.1.now)) result (readers.coordinate text.now) }
{
    let signed = strip(" ", text)?;
    let number = signed_number(signed)?;
    Ok(number)
}

#[tactic(auto, unfolding(crate::specs::ProbeLine::signed_number))]
fn signed_number(text: &str) -> Result<(i64, &str), &[u8]>
    ensures { Answers (λ n. (n.0, n.1.now)) result (readers.signed_number text.now) }
{
    if starts("-", text) {
        let number = negative(text)?;
        Ok(number)
    } else {
        let (number, left) = ten_digits(text)?;
        Ok((number, left))
    }
}

#[tactic(auto, unfolding(crate::specs::ProbeLine::negative, reading::specs::Readers::after))]
fn negative(text: &str) -> Result<(i64, &str), &[u8]>
    ensures { Answers (λ n. (n.0, n.1.now)) result (readers.negative text.now) }
{
    let digits = strip("-", text)?;
    let (number, left) = ten_digits(digits)?;
    Ok((-number, left))
}

// A number of one to ten digits.
fn ten_digits(text: &str) -> Result<(i64, &str), &[u8]>
    ensures read { Answers (λ n. (n.0, n.1.now)) result (reading.mapped pos (number 10) text.now) }
    ensures below { IfOk result (λ n. unsigned_abs n.0 < 10 ^ 10) }
{
    let (number, left) = long_number(text)?;
    Ok((number as i64, left))
}

#[tactic(auto, unfolding(reading::specs::Decimals::number))]
fn long_number(text: &str) -> Result<(u64, &str), &[u8]>
    ensures read { Answers (λ n. (n.0, n.1.now)) result (number 10 text.now) }
    ensures below { IfOk result (λ n. n.0 < 10 ^ 10) }
{
    let (first, rest) = digit(text)?;
    Ok(more_digits(u64::from(first - b'0'), rest))
}

// At most nine digits more, behind a digit.
fn more_digits(first: u64, text: &str) -> (u64, &str)
    requires { first < 10 }
    ensures read { more_digits 9 first text.now ≡ Ok (result.0, result.1.now) }
    ensures below { result.0 < 10 ^ 10 }
{
    let mut value = first;
    let mut rest = text;
    for _ in 0..9_u32 {
        match digit(rest) {
            Err(_) => return (value, rest),
            Ok((byte, after)) => {
                value = 10 * value + u64::from(byte - b'0');
                rest = after;
            }
        }
    }
    (value, rest)
}
