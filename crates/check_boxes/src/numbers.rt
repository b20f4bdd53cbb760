//! Lengths by numbers (CSS 2, 4.3.2 and 4.3.3).

ghost use Rattle.std.specs.Prelude.{◌≤◌, ◌≤ℤ◌, ◌^◌, pos, unsigned_abs, IfOk};

use crate::words::{CaseError, Words};
use std::alloc::Global;
use wm_units::{cap, cap_size, fixed, half, percent, scaled};

const GREATEST_HUNDREDTHS: i64 = 999_999_999;

/// Hundredths of a pixel.
pub(crate) fn fixed_length(alloc: Global, words: &mut Words<'_>) -> Result<String, CaseError> {
    let hundredths = hundredths(words)?;
    words.end()?;
    Ok(format!(in alloc; "{}", fixed(hundredths))?)
}

/// Hundredths of a font size.
pub(crate) fn scaled_length(alloc: Global, words: &mut Words<'_>) -> Result<String, CaseError> {
    let hundredths = hundredths(words)?;
    let font_size = size(words, 65_536)?;
    words.end()?;
    Ok(format!(in alloc; "{}", scaled(hundredths, font_size))?)
}

/// Hundredths of a percent of a base.
pub(crate) fn percent_of(alloc: Global, words: &mut Words<'_>) -> Result<String, CaseError> {
    let hundredths = hundredths(words)?;
    let base = size(words, 1 << 32)?;
    words.end()?;
    Ok(format!(in alloc; "{}", percent(hundredths, base))?)
}

/// A length as a resolved length, as a used size, and its half.
pub(crate) fn held_length(alloc: Global, words: &mut Words<'_>) -> Result<String, CaseError> {
    let length = words.length()?;
    words.end()?;
    Ok(format!(in alloc; "{} {} {}", cap(length), cap_size(length), half(length))?)
}

/// Hundredths, at most 999,999,999 without their sign.
pub(crate) fn hundredths(words: &mut Words<'_>) -> Result<i64, CaseError>
    ensures { IfOk result (λ hundredths. unsigned_abs hundredths ≤ 999999999) }
{
    let hundredths = words.length()?;
    if -GREATEST_HUNDREDTHS <= hundredths && hundredths <= GREATEST_HUNDREDTHS {
        Ok(hundredths)
    } else {
        Err(CaseError::Malformed)
    }
}

// A size that is at most so great.
fn size(words: &mut Words<'_>, greatest: i64) -> Result<i64, CaseError>
    ensures low { IfOk result (λ size. pos 0 ≤ℤ size) }
    ensures high { IfOk result (λ size. size ≤ℤ greatest) }
{
    let size = words.length()?;
    if 0 <= size && size <= greatest {
        Ok(size)
    } else {
        Err(CaseError::Malformed)
    }
}
