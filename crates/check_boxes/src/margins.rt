//! Margins that adjoin, and stacks of children (CSS 2, 8.3.1 and 9.4.1).

ghost use Rattle.std.specs.Prelude.{◌*◌, ◌≤◌, ◌^◌, IfOk};
ghost use Rattle.block_flow.specs.Children.{lengths_of};

use crate::words::{CaseError, Words};
use block_flow::{ChildBox, ParentEdges, stack};
use margin_collapse::Margins;
use std::alloc::Global;
use std::sync::ledger::Ledger;
use wm_units::Steps;

/// The margin to which four collapse.
pub(crate) fn collapsed_margin(alloc: Global, words: &mut Words<'_>) -> Result<String, CaseError> {
    let first = words.length()?;
    let second = words.length()?;
    let third = words.length()?;
    let fourth = words.length()?;
    words.end()?;
    let value = value_of(first, second, third, fourth)?;
    Ok(format!(in alloc; "{value}")?)
}

fn value_of(first: i64, second: i64, third: i64, fourth: i64) -> Result<i64, CaseError> {
    let joined = Margins::of(first)
        .join(Margins::of(second))
        .join(Margins::of(third).join(Margins::of(fourth)))
        .join(Margins::none());
    if joined.positive.unsigned_abs() <= 1 << 60 && joined.negative.unsigned_abs() <= 1 << 60 {
        Ok(joined.value())
    } else {
        Err(CaseError::Malformed)
    }
}

/// Three children, stacked.
pub(crate) fn stacked_children<L: Ledger>(
    alloc: Global,
    words: &mut Words<'_>,
    arranged: &mut Steps<L>,
) -> Result<String, CaseError> {
    let parent = ParentEdges {
        start_joins: words.flag()?,
        end_joins: words.flag()?,
    };
    let first = child(words)?;
    let second = child(words)?;
    let third = child(words)?;
    words.end()?;
    let stack = stack(alloc, parent, &[first, second, third], arranged)?;
    let mut answer = String::new(alloc);
    for place in stack.places() {
        answer.push_str(&format!(in alloc; "{place} ")?)?;
    }
    answer.push_str(&format!(in alloc; "{}", stack.extent())?)?;
    answer.push_str(&margin_pair(alloc, stack.start())?)?;
    answer.push_str(&margin_pair(alloc, stack.end())?)?;
    answer.push_str(if stack.through() { " yes" } else { " no" })?;
    Ok(answer)
}

fn child(words: &mut Words<'_>) -> Result<ChildBox, CaseError>
    ensures { IfOk result (λ child. lengths_of child ≤ 5 * 2 ^ 40) }
{
    Ok(ChildBox {
        size: words.length()?,
        start: Margins {
            positive: words.length()?,
            negative: words.length()?,
        },
        end: Margins {
            positive: words.length()?,
            negative: words.length()?,
        },
        through: words.flag()?,
    })
}

fn margin_pair(alloc: Global, margins: Margins) -> Result<String, CaseError> {
    Ok(format!(in alloc; " {} {}", margins.positive, margins.negative)?)
}
