//! Decimal numbers without a sign.

ghost use Rattle.std.specs.Prelude.{◌≡◌, ◌+◌, ◌^◌, ◌<◌, ◌≤◌, length, IfOk, Ok};
ghost use Rattle.reading.specs.Readers.{Answers};
ghost use Rattle.reading.specs.Decimals.{number, more_digits};

use crate::texts::digit;

/// A number of one to `most` decimal digits, and the text behind it.
#[tactic(auto, unfolding(crate::specs::Decimals::number))]
pub fn decimal(most: u32, text: &str) -> Result<(u32, &str), &[u8]>
    requires some { 0 < most }
    requires fits { most ≤ 9 }
    ensures read { Answers (λ n. (n.0, n.1.now)) result (number most text.now) }
    ensures below { IfOk result (λ n. n.0 < 10 ^ most) }
    ensures shorter { IfOk result (λ n. length n.1.now < length text.now) }
{
    let (first, rest) = digit(text)?;
    Ok(more_digits(most - 1, u32::from(first - b'0'), rest))
}

// At most `most` digits more, behind a digit.
fn more_digits(most: u32, first: u32, text: &str) -> (u32, &str)
    requires one { first < 10 }
    requires fits { most ≤ 8 }
    ensures read { more_digits most first text.now ≡ Ok (result.0, result.1.now) }
    ensures below { result.0 < 10 ^ (most + 1) }
    ensures shorter { length result.1.now ≤ length text.now }
{
    let mut value = first;
    let mut rest = text;
    for _ in 0..most {
        match digit(rest) {
            Err(_) => return (value, rest),
            Ok((byte, after)) => {
                value = 10 * value + u32::from(byte - b'0');
                rest = after;
            }
        }
    }
    (value, rest)
}
