//! What stands under a key: a box, its place among the others, whether it is marked, and what is kept for it.

ghost use Rattle.std.specs.Prelude.{◌≡◌, ◌≢◌, ◌⊎◌, [], IsTrue, false, true, None, Some, option_map, OnOk, OnErr, if◌then◌else◌};
ghost use Rattle.box_arena.specs.At.{node_of};
ghost use Rattle.box_arena.specs.Results.{result_for};
ghost use Rattle.box_arena.specs.Write.{EntryKeeps};

use crate::results::Results;
use box_gen::BoxNode;
use fragment_types::{Constraint, Fragment};
use std::alloc::{AllocError, Global};
use std::mem;

/// The boxes next to a box, by their keys: its parent, its first and last child, the siblings before and behind it.
#[derive(Clone, Copy, Debug, PartialEq, Eq)]
pub(crate) struct Links {
    pub(crate) parent: Option<usize>,
    pub(crate) first: Option<usize>,
    pub(crate) last: Option<usize>,
    pub(crate) previous: Option<usize>,
    pub(crate) next: Option<usize>,
}

/// Whether what is kept for a box is out of date, and whether a climb that goes on has come by.
#[derive(Clone, Copy, Debug, PartialEq, Eq)]
pub(crate) struct Mark {
    pub(crate) marked: bool,
    pub(crate) seen: bool,
}

/// A box with what is kept for it: results, and what was prepared of its text.
#[derive(Drop)]
pub(crate) struct Held<T> {
    pub(crate) node: BoxNode,
    pub(crate) text: Option<T>,
    pub(crate) results: Results,
}

/// All that stands under a key.
#[derive(Drop)]
pub(crate) struct Entry<T> {
    pub(crate) links: Links,
    pub(crate) mark: Mark,
    pub(crate) held: Held<T>,
}

impl<T> Entry<T> {
    /// A box that isn't attached and has no children, with nothing kept and no text, and not marked.
    pub(crate) fn new(alloc: Global, node: BoxNode) -> Entry<T>
        ensures { result ≡ record { links = record { parent = None; first = None; last = None; previous = None; next = None }; mark = record { marked = false; seen = false }; held = record { node = node; text = None; results = [] } } }
    {
        Entry {
            links: Links {
                parent: None,
                first: None,
                last: None,
                previous: None,
                next: None,
            },
            mark: Mark {
                marked: false,
                seen: false,
            },
            held: Held {
                node,
                text: None,
                results: Results::new(alloc),
            },
        }
    }

    /// What is kept for a constraint, where the box isn't marked.
    pub(crate) fn kept(&self, c: Constraint) -> Option<&Fragment>
        ensures { option_map (λ f. f.now) result ≡ (if self.now.mark.marked then None else result_for self.now.held.results c) }
    {
        if self.mark.marked {
            None
        } else {
            self.held.results.get(c)
        }
    }

    /// Keeps a fragment for a constraint. What was kept under the mark goes, and so does the mark.
    pub(crate) fn keep(
        &mut self,
        alloc: Global,
        c: Constraint,
        fragment: Fragment,
    ) -> Result<(), AllocError>
        ensures ok { OnOk result (EntryKeeps self.old self.new c fragment) }
        ensures err { OnErr result (self.new ≡ self.old) }
    {
        let stale = self.mark.marked;
        if stale {
            let mut fresh = Results::new(alloc);
            fresh.put(c, fragment)?;
            self.held.results = fresh;
            self.mark.marked = false;
            Ok(())
        } else {
            self.held.results.put(c, fragment)?;
            Ok(())
        }
    }
}

impl<T> Entry<T> {
    /// Whether any result is kept, and the box isn't marked.
    pub(crate) fn keeps_results(&self) -> bool
        ensures some { IsTrue result → (self.now.mark.marked ≡ false) × (self.now.held.results ≢ []) }
        ensures none { result ≡ false → (self.now.mark.marked ≡ true) ⊎ (self.now.held.results ≡ []) }
    {
        !self.mark.marked && !self.held.results.is_empty()
    }

    /// Takes what is kept, where it isn't marked; then nothing is kept.
    pub(crate) fn take_results(&mut self, alloc: Global) -> Results
        ensures taken { result ≡ (if self.old.mark.marked then [] else self.old.held.results) }
        ensures rest { self.new ≡ record self.old { held = record self.old.held { results = [] } } }
    {
        let results = mem::replace(&mut self.held.results, Results::new(alloc));
        if self.mark.marked {
            Results::new(alloc)
        } else {
            results
        }
    }

    /// Puts results in the place of all that is kept. The box is marked no more.
    pub(crate) fn put_results(&mut self, results: Results)
        ensures { self.new ≡ record self.old { mark = record self.old.mark { marked = false }; held = record self.old.held { results = results } } }
    {
        self.held.results = results;
        self.mark.marked = false;
    }
}

impl<T: Drop> Held<T> {
    /// Puts the box anew and drops its text; gives the old one back.
    pub(crate) fn replace_node(&mut self, node: BoxNode) -> BoxNode
        ensures result { result ≡ self.old.node }
        ensures new { self.new ≡ record self.old { node = node; text = None } }
    {
        self.text = None;
        mem::replace(&mut self.node, node)
    }
}
