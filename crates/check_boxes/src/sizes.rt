//! Sizes within limits, the inline equation and orthogonal boxes (CSS 2, 10.3.3 to 10.7; CSS Writing Modes 4, 7.3).

ghost use Rattle.std.specs.Prelude.{◌≡◌, ◌≤◌, ◌^◌, ℤ, unsigned_abs, IfOk};
ghost use Rattle.style_types.specs.declared.style.Size.TheVariants.{Percent};
ghost use Rattle.size_rules.specs.Equation.{length_of};

use crate::numbers::hundredths;
use crate::words::{CaseError, Words};
use ortho_flow::{available, contribution};
use size_rules::{definite_block, fit, held, inline_equation};
use std::alloc::Global;
use style_types::Size;

/// What an orthogonal box has.
pub(crate) fn orthogonal_size(alloc: Global, words: &mut Words<'_>) -> Result<String, CaseError> {
    let containing = words.length_if_any()?;
    let view = words.length()?;
    let edges = words.length()?;
    words.end()?;
    let size = match containing {
        Some(containing) => available(Some(containing), view, edges),
        None => available(None, view, edges),
    };
    Ok(format!(in alloc; "{size}")?)
}

/// What an orthogonal box asks of its container.
pub(crate) fn orthogonal_contribution(
    alloc: Global,
    words: &mut Words<'_>,
) -> Result<String, CaseError> {
    let block = words.length()?;
    let edges = words.length()?;
    let margins = words.length()?;
    words.end()?;
    Ok(format!(in alloc; "{}", contribution(block, edges, margins))?)
}

/// The inline equation, solved.
pub(crate) fn inline_sizes(alloc: Global, words: &mut Words<'_>) -> Result<String, CaseError> {
    let available = words.length()?;
    let edges = words.length()?;
    let size = words.length_if_any()?;
    let min = words.length()?;
    let max = words.length_if_any()?;
    let start = margin(words)?;
    let end = margin(words)?;
    words.end()?;
    let used = inline_equation(available, edges, size, min, max, start, end);
    Ok(format!(in alloc; "{} {} {}", used.start, used.size, used.end)?)
}

#[tactic(auto, unfolding(size_rules::specs::Equation::or_zero, size_rules::specs::Equation::length_of))]
fn margin(words: &mut Words<'_>) -> Result<Option<i64>, CaseError>
    ensures { IfOk result (λ margin. length_of margin ≤ 2 ^ 40) }
{
    match words.length_if_any()? {
        Some(margin) => Ok(Some(margin)),
        None => Ok(None),
    }
}

/// A size within its minimum and its maximum.
pub(crate) fn held_size(alloc: Global, words: &mut Words<'_>) -> Result<String, CaseError> {
    let size = words.length()?;
    let min = words.length()?;
    let max = words.length_if_any()?;
    words.end()?;
    Ok(format!(in alloc; "{}", held(size, min, max))?)
}

/// The size that fits.
pub(crate) fn fitting_size(alloc: Global, words: &mut Words<'_>) -> Result<String, CaseError> {
    let min = words.length()?;
    let max = words.length()?;
    let available = words.length()?;
    words.end()?;
    Ok(format!(in alloc; "{}", fit(min, max, available))?)
}

/// A block size that is known before the contents are laid out.
pub(crate) fn definite_size(alloc: Global, words: &mut Words<'_>) -> Result<String, CaseError> {
    let length = match words.word()? {
        "auto" => definite_size_by(Size::Auto, words)?,
        "length" => {
            let length = words.length()?;
            definite_size_by(Size::Length(length), words)?
        }
        "percent" => {
            let hundredths = hundredths(words)?;
            definite_size_by(Size::Percent(hundredths), words)?
        }
        _ => return Err(CaseError::Malformed),
    };
    words.end()?;
    match length {
        Some(length) => Ok(format!(in alloc; "{length}")?),
        None => Ok("-".to_string(alloc)?),
    }
}

// The block size, by the size of the containing block that the next word has.
fn definite_size_by(size: Size, words: &mut Words<'_>) -> Result<Option<i64>, CaseError>
    requires { (p : ℤ) → size ≡ Percent p → unsigned_abs p ≤ 999999999 }
{
    match words.length_if_any()? {
        None => Ok(definite_block(size, None)),
        Some(base) => {
            if 0 <= base && base <= 1 << 32 {
                Ok(definite_block(size, Some(base)))
            } else {
                Err(CaseError::Malformed)
            }
        }
    }
}
