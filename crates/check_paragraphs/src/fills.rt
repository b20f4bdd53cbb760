//! Lines of a paragraph: the items that are asked, and where their lines end (CSS Text 3, 5.1).

ghost use Rattle.std.specs.Prelude.{◌≡◌, ◌+◌, ◌≤◌, ◌^◌, true, IfSome};
ghost use Rattle.line_fill.specs.Item.{lengths_of, spread};
ghost use Rattle.line_fill.specs.Sums.{StandFor};

use crate::names::BREAKS;
use crate::sums::with_length;
use crate::words::{CaseError, Words};
use line_fill::{FillItem, Sums, fill, intrinsic};
use std::alloc::Global;
use std::io;
use std::io::Write;
use std::sync::ledger::Ledger;
use wm_units::Steps;

type FillItems = Vec<FillItem>;

type Pairs = Vec<(usize, usize)>;

/// A paragraph with the pieces of which the widths are asked.
#[derive(Drop)]
pub(crate) struct FillCase {
    available: i64,
    items: FillItems,
    pairs: Pairs,
}

/// The case of these words.
pub(crate) fn fill_case(alloc: Global, words: &mut Words<'_>) -> Result<FillCase, CaseError> {
    let available = words.number()?;
    let items = fill_items(alloc, words)?;
    let pairs = pairs(alloc, words)?;
    words.end()?;
    Ok(FillCase {
        available,
        items,
        pairs,
    })
}

fn fill_items(alloc: Global, words: &mut Words<'_>) -> Result<FillItems, CaseError> {
    let mut items = Vec::new(alloc);
    for _ in 0..words.number::<usize>()? {
        items.push(FillItem {
            advance: words.number()?,
            before: words.number()?,
            after: words.number()?,
            space: words.flag()?,
            end: words.named(&BREAKS)?,
        })?;
    }
    Ok(items)
}

fn pairs(alloc: Global, words: &mut Words<'_>) -> Result<Pairs, CaseError> {
    let mut pairs = Vec::new(alloc);
    for _ in 0..words.number::<usize>()? {
        pairs.push((words.number()?, words.number()?))?;
    }
    Ok(pairs)
}

/// Prints the ends of lines, the intrinsic sizes and the widths.
pub(crate) fn answer_fill<W: Write, M: Ledger>(
    alloc: Global,
    case: &FillCase,
    arranged: &mut Steps<M>,
    output: &mut W,
) -> io::Result<()> {
    let items = case.items.as_slice();
    if !are_short(items) {
        return write!(output, "too long");
    }
    let lines = fill(alloc, items, case.available, arranged)?;
    write!(output, "ends")?;
    for end in lines.ends() {
        write!(output, " {end}")?;
    }
    let sizes = intrinsic(items);
    write!(output, " sizes {} {} widths", sizes.min, sizes.max)?;
    let sums = Sums::new(alloc, items)?;
    for (from, to) in &case.pairs {
        print_width(output, items, &sums, *from, *to)?;
    }
    Ok(())
}

// Prints the width between two places.
fn print_width<W: Write>(
    output: &mut W,
    items: &[FillItem],
    sums: &Sums,
    from: usize,
    to: usize,
) -> io::Result<()>
    requires { StandFor items.now sums.now }
{
    if from <= to && to <= items.len() {
        write!(output, " {}", sums.width(from, to))
    } else {
        write!(output, " outside")
    }
}

// Whether all lengths, without their signs, come to at most 2^60.
#[tactic(auto, using(std::proofs::lemmas::List::Sums::sum_by_more))]
fn are_short(items: &[FillItem]) -> bool
    ensures { result ≡ true → spread items.now ≤ 2 ^ 60 }
{
    let mut sum = 0;
    for item in items {
        match with_item(sum, *item) {
            Some(more) => sum = more,
            None => return false,
        }
    }
    true
}

fn with_item(sum: u64, item: FillItem) -> Option<u64>
    ensures { IfSome result (λ more. (more ≡ sum + lengths_of item) × (more ≤ 2 ^ 60)) }
{
    let advance = with_length(sum, item.advance)?;
    let before = with_length(advance, item.before)?;
    let all = with_length(before, item.after)?;
    Some(all)
}
