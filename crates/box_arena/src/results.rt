//! What was laid out for a box, by the constraint it was laid out for.

ghost use Rattle.std.specs.Prelude.{◌≡◌, ◌≢◌, [], IsTrue, false, Some, OnOk, OnErr, option_copied};
ghost use Rattle.std.specs.Ordering.{is_eq};
ghost use Rattle.box_arena.specs.Results as rule;
ghost use Rattle.box_arena.specs.Results.{result_for, sizes_cmp};

use fragment_types::{Constraint, Fragment};
use std::alloc::{AllocError, Global};
use std::collections::BTreeMap;
use std::marker::Model;

// A constraint, of which tuples have an order.
type Sizes = (Option<i64>, Option<i64>);

// The inline and the block size of a constraint.
fn sizes_of(c: Constraint) -> Sizes
    ensures { result ≡ (c.inline, c.block) }
{
    let Constraint { inline, block } = c;
    (inline, block)
}

fn are_same(one: Sizes, other: Sizes) -> bool
    ensures { result ≡ is_eq (sizes_cmp one other) }
{
    one.cmp(&other).is_eq()
}

// A result with the sizes that it was laid out for.
type Kept = (Sizes, Fragment);

// Whether what is kept for these sizes stands first: where nothing does, or what is kept for them already.
fn stands_first(first: &Option<Kept>, sizes: Sizes) -> bool
    ensures { result ≡ rule.stands_first first.now sizes }
{
    match first {
        Some((own, _)) => are_same(sizes, *own),
        None => true,
    }
}

/// Fragments by their constraints. The first that is kept stands in the box itself, since most boxes are laid out under one
/// constraint alone.
#[derive(Drop)]
pub(crate) struct Results {
    first: Option<Kept>,
    others: BTreeMap<Sizes, Fragment>,
}

impl Model for Results {
    ghost use Rattle.std.specs.Prelude.{ℤ, List, Option};
    ghost use Rattle.std.specs.Coded.{codes};
    ghost use Rattle.fragment_types.specs.contracts.Fragment as fragment;
    ghost use Rattle.fragment_types.specs.declared.fragment.Fragment.{Fragment};
    ghost use Rattle.box_arena.specs.Results.{with_first};

    ghost Value = { List ((Option ℤ × Option ℤ) × Fragment) };

    ghost coded = { Prim.hlevel (codes, fragment.the_row.coded) };

    ghost view = { λ r. with_first r.first r.others.entries };
}

impl Results {
    /// Nothing. Takes no memory.
    pub(crate) fn new(alloc: Global) -> Results
        ensures { result ≡ [] }
    {
        Results {
            first: None,
            others: BTreeMap::new(alloc),
        }
    }

    /// What is kept for a constraint.
    pub(crate) fn get(&self, c: Constraint) -> Option<&Fragment>
        ensures { option_copied result ≡ result_for self.now c }
    {
        let sizes = sizes_of(c);
        match &self.first {
            Some((own, fragment)) => {
                if are_same(sizes, *own) {
                    Some(fragment)
                } else {
                    self.others.get(&sizes)
                }
            }
            None => self.others.get(&sizes),
        }
    }

    /// Keeps a fragment for a constraint, in place of what was kept for it.
    pub(crate) fn put(&mut self, c: Constraint, fragment: Fragment) -> Result<(), AllocError>
        ensures here { OnOk result (result_for self.new c ≡ Some fragment) }
        ensures others { OnOk result ((other : Constraint) → other ≢ c → result_for self.new other ≡ result_for self.old other) }
        ensures err { OnErr result (self.new ≡ self.old) }
    {
        let sizes = sizes_of(c);
        if stands_first(&self.first, sizes) {
            self.first = Some((sizes, fragment));
        } else {
            self.others.insert(sizes, fragment)?;
        }
        Ok(())
    }

    /// Whether nothing is kept.
    pub(crate) fn is_empty(&self) -> bool
        ensures empty { IsTrue result → self.now ≡ [] }
        ensures none { result ≡ false → self.now ≢ [] }
    {
        self.first.is_none() && self.others.is_empty()
    }

    /// Drops all.
    pub(crate) fn clear(&mut self)
        ensures { self.new ≡ [] }
    {
        self.first = None;
        self.others.clear();
    }
}
