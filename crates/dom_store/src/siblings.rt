//! Lists of nodes' numbers.

ghost use Rattle.std.specs.Prelude.{◌≡◌, ◌≤◌, ◌++◌, ◌∷◌, ℕ, List, [], drop, length, nat_eq, Some, IfOk, OnErr, OnOk};
ghost use Rattle.std.specs.List.{list_any, position, position_from};
ghost use Rattle.dom_store.specs.Edits.{with_put, without};
ghost use Rattle.dom_store.specs.Exact.{without_each};
ghost use Rattle.dom_store.specs.Refusals.{least, lesser};
ghost use Rattle.dom_store.specs.Steps.{place_in};
ghost use Rattle.dom_store.specs.Taking.{IsStanding, turned, without_run};

use crate::node::NodeNumbers;
use std::alloc::{AllocError, Global};
use std::collections::BTreeSet;

/// How many numbers are looked at at once.
const BLOCK: usize = 64;

/// Where a number stands among others.
#[derive(Drop)]
pub(crate) enum Standing {
    Nowhere,
    /// At this place alone.
    At(usize),
    /// More than once: these are the others.
    Among(NodeNumbers),
}

impl Standing {
    /// How many the others are, where with the number there are so many.
    pub(crate) fn count_others(&self, count: usize) -> usize
        ensures { (number : ℕ) (numbers : List ℕ) → IsStanding number numbers self.now → length numbers ≡ count → result ≡ length (without number numbers) }
    {
        match self {
            Standing::Nowhere => count,
            Standing::At(_) => count.saturating_sub(1),
            Standing::Among(others) => others.len(),
        }
    }
}

/// Where this number stands among the children. It takes memory only where it stands there more than once.
pub(crate) fn standing_among(
    alloc: Global,
    children: &[u32],
    number: u32,
) -> Result<Standing, AllocError>
    ensures { IfOk result (λ standing. IsStanding number children.now standing) }
{
    let Some(place) = place_of(children, number) else {
        return Ok(Standing::Nowhere);
    };
    let (_, later) = children.split_at(place + 1);
    if has(later, number) {
        let others = without(alloc, children, number)?;
        return Ok(Standing::Among(others));
    }
    Ok(Standing::At(place))
}

/// The children but for this one.
pub(crate) fn without(
    alloc: Global,
    children: &[u32],
    number: u32,
) -> Result<NodeNumbers, AllocError>
    ensures { IfOk result (λ rest. rest.items ≡ without number children.now) }
{
    let mut rest = Vec::new(alloc);
    rest.extend_from_slice(children)?;
    drop_from(&mut rest, number);
    Ok(rest)
}

/// The children but for each of these.
pub(crate) fn without_each(
    alloc: Global,
    children: &[u32],
    numbers: &[u32],
) -> Result<NodeNumbers, AllocError>
    ensures { IfOk result (λ rest. rest.items ≡ without_each numbers.now children.now) }
{
    let mut gone = BTreeSet::new(alloc);
    for number in numbers {
        gone.insert(*number)?;
    }
    let mut rest = Vec::new(alloc);
    for child in children {
        if !gone.contains(child) {
            rest.push(*child)?;
        }
    }
    Ok(rest)
}

/// Takes each of these out of the children, one after the other. It takes no memory, and goes over the children for each.
pub(crate) fn drop_each(children: &mut NodeNumbers, numbers: &[u32])
    ensures { children.new.items ≡ without_each numbers.now children.old.items }
{
    for number in numbers {
        drop_from(children, *number);
    }
}

/// Takes this one out of the children.
pub(crate) fn drop_from(children: &mut NodeNumbers, number: u32)
    ensures { children.new.items ≡ without number children.old.items }
{
    while let Some(place) = place_of(children, number) {
        children.remove(place);
    }
}

/// The first place of this number.
fn place_of(numbers: &[u32], number: u32) -> Option<usize>
    ensures { result ≡ position (λ other. nat_eq other number) numbers.now }
{
    let start = start_of(numbers, number);
    let (_, rest) = numbers.split_at(start);
    let place = place_in(rest, number)?;
    Some(start + place)
}

/// The first place of this number, or behind the last where it isn't there.
pub(crate) fn place_or_end(numbers: &[u32], number: u32) -> usize
    ensures { result ≡ place_in number numbers.now }
{
    place_of(numbers, number).unwrap_or(numbers.len())
}

/// The first place of this number, looked for number by number.
fn place_in(numbers: &[u32], number: u32) -> Option<usize>
    ensures { result ≡ position (λ other. nat_eq other number) numbers.now }
{
    numbers.iter().position(|other| *other == number)
}

/// Where to search for this number: it isn't before. A whole block is looked at faster than its numbers one by one.
fn start_of(numbers: &[u32], number: u32) -> usize
    ensures within { result ≤ length numbers.now }
    ensures passed { position (λ other. nat_eq other number) numbers.now ≡ position_from (λ other. nat_eq other number) result (drop result numbers.now) }
{
    let mut start = 0;
    while numbers.len() - start >= BLOCK {
        if has(&numbers[start..start + BLOCK], number) {
            return start;
        }
        start += BLOCK;
    }
    start
}

/// Whether this number is there. It goes over all of them, with nothing to decide on the way.
fn has(numbers: &[u32], number: u32) -> bool
    ensures { result ≡ list_any (λ other. nat_eq other number) numbers.now }
{
    let mut found = false;
    for other in numbers {
        found |= *other == number;
    }
    found
}

/// These numbers come among the children, at the index. Where memory runs out, the children stay as they are.
pub(crate) fn put_at(
    children: &mut NodeNumbers,
    index: usize,
    numbers: NodeNumbers,
) -> Result<(), AllocError>
    requires { index ≤ length children.old.items }
    ensures put { OnOk result (children.new.items ≡ with_put index numbers.items children.old.items) }
    ensures same { OnErr result (children.new.items ≡ children.old.items) }
{
    children.splice(index..index, numbers)?;
    Ok(())
}

/// This number comes among the children, at the index. Where memory runs out, the children stay as they are.
pub(crate) fn put_one(
    children: &mut NodeNumbers,
    index: usize,
    number: u32,
) -> Result<(), AllocError>
    requires { index ≤ length children.old.items }
    ensures put { OnOk result (children.new.items ≡ with_put index (number ∷ []) children.old.items) }
    ensures same { OnErr result (children.new.items ≡ children.old.items) }
{
    children.insert(index, number)?;
    Ok(())
}

/// This number comes last. Where memory runs out, the children stay as they are.
pub(crate) fn put_end(children: &mut NodeNumbers, number: u32) -> Result<(), AllocError>
    ensures put { OnOk result (children.new.items ≡ children.old.items ++ number ∷ []) }
    ensures same { OnErr result (children.new.items ≡ children.old.items) }
{
    children.push(number)?;
    Ok(())
}

/// The number at one place comes to another, and those between move up to where it was. It takes no memory.
pub(crate) fn turn(children: &mut NodeNumbers, from: usize, to: usize)
    ensures { children.new.items ≡ turned from to children.old.items }
{
    let count = children.len();
    if from < count {
        let to = to.min(count - 1);
        if from < to {
            children[from..to + 1].rotate_left(1);
        } else {
            children[to..from + 1].rotate_right(1);
        }
    }
}

/// Takes so many of the children out, from the index on, or as many as stand there. It takes no memory.
pub(crate) fn drop_run(children: &mut NodeNumbers, index: usize, count: usize)
    ensures { children.new.items ≡ without_run index count children.old.items }
{
    if index < children.len() {
        let (_, tail) = children.split_at_mut(index);
        let count = count.min(tail.len());
        tail.rotate_left(count);
        children.truncate(children.len() - count);
    }
}

/// The least of these numbers.
pub(crate) fn least(numbers: &[u32]) -> Option<u32>
    ensures { result ≡ least numbers.now }
{
    let mut least = None;
    for number in numbers {
        least = Some(lesser(least, *number));
    }
    least
}

fn lesser(least: Option<u32>, number: u32) -> u32
    ensures { Some result ≡ lesser least number }
{
    match least {
        Some(other) => other.min(number),
        None => number,
    }
}
