//! The line of one node after another, kept while a document is gone through.

ghost use Rattle.std.specs.Prelude.{◌≡◌, true, Some};
ghost use Rattle.dom_store.specs.State.{entry_of, line, state_of};
ghost use Rattle.cascade.specs.Line.{whats_of};
ghost use Rattle.cascade.specs.Chain.{first_number};
ghost use Rattle.cascade.specs.Kept.{IsKept, kept_state, kept_numbers, kept_whats};

use crate::class_sets::ClassSets;
use crate::line::{MOST, put};
use crate::seen::Seen;
use dom_store::{Document, Node};
use std::alloc::Global;

/// The line of the node that was looked at last. A node whose parent stands in it has the nodes from there on in common
/// with that one, so that only the others are looked up in the document.
#[derive(Drop)]
pub struct KeptLine<'a> {
    document: &'a Document,
    // The nodes from the place `start` on, and their numbers. Before it stands anything.
    nodes: [&'a Node; MOST],
    numbers: [u32; MOST],
    start: usize,
    // The classes of those that have many.
    sets: ClassSets,
}

impl<'a> KeptLine<'a> {
    /// No line yet. `any` may be any node.
    pub fn new(document: &'a Document, any: &'a Node) -> KeptLine<'a>
        ensures same { kept_state result ≡ state_of document.now }
        ensures kept { IsKept result }
    {
        KeptLine {
            document,
            nodes: [any; MOST],
            numbers: [0; MOST],
            start: MOST,
            sets: ClassSets::none(),
        }
    }

    /// The document.
    pub(crate) fn document(&self) -> &'a Document
        ensures { state_of result.now ≡ kept_state self.now }
    {
        self.document
    }

    /// The line that is kept.
    pub(crate) fn seen<'l>(&'l self) -> Seen<'l, 'a>
        requires { IsKept self.now }
        ensures { whats_of result.nodes.now ≡ kept_whats self.now }
    {
        Seen {
            nodes: &self.nodes[self.start..],
            sets: &self.sets,
        }
    }

    /// Keeps the line of this node from now on, unless it has more than 64 nodes.
    pub(crate) fn enter(&mut self, alloc: Global, number: u32, node: &'a Node) -> bool
        requires kept { IsKept self.old }
        requires here { (kept_state self.old).node_at number ≡ Some (entry_of node.now) }
        ensures same { kept_state self.new ≡ kept_state self.old }
        ensures kept { IsKept self.new }
        ensures line { result ≡ true → kept_whats self.new ≡ line (kept_state self.old) number }
    {
        self.climb(alloc, number, node, MOST)
    }

    // Keeps the line of this node from now on, unless more than `most` nodes above it would have to be looked up.
    fn climb(&mut self, alloc: Global, number: u32, node: &'a Node, most: usize) -> bool
        requires kept { IsKept self.old }
        requires here { (kept_state self.old).node_at number ≡ Some (entry_of node.now) }
        ensures same { kept_state self.new ≡ kept_state self.old }
        ensures kept { IsKept self.new }
        ensures first { result ≡ true → first_number (kept_numbers self.new) ≡ Some number }
    {
        self.leave(node.parent);
        if self.first() != node.parent {
            let Some(parent) = node.parent else {
                return false;
            };
            let Some(above) = self.document.node(parent) else {
                return false;
            };
            if most == 0 || !self.climb(alloc, parent, above, most - 1) {
                return false;
            }
        }
        self.begin_with(alloc, number, node)
    }

    // Leaves the nodes before the one of this number, and all of them where it isn't there.
    fn leave(&mut self, number: Option<u32>)
        requires kept { IsKept self.old }
        ensures same { kept_state self.new ≡ kept_state self.old }
        ensures kept { IsKept self.new }
    {
        let mut start = self.start;
        while start < MOST && Some(self.numbers[start]) != number {
            start += 1;
        }
        self.start = start;
    }

    // The number of the first node.
    fn first(&self) -> Option<u32>
        requires { IsKept self.now }
        ensures { result ≡ first_number (kept_numbers self.now) }
    {
        self.numbers[self.start..].first().copied()
    }

    // Puts a child of the first node before it, where there is room.
    fn begin_with(&mut self, alloc: Global, number: u32, node: &'a Node) -> bool
        requires kept { IsKept self.old }
        requires here { (kept_state self.old).node_at number ≡ Some (entry_of node.now) }
        requires under { first_number (kept_numbers self.old) ≡ node.now.parent }
        ensures same { kept_state self.new ≡ kept_state self.old }
        ensures kept { IsKept self.new }
        ensures first { result ≡ true → first_number (kept_numbers self.new) ≡ Some number }
    {
        if self.start == 0 {
            return false;
        }
        let place = self.start - 1;
        let height = MOST - self.start;
        self.sets.put(alloc, height, &node.kind);
        put(&mut self.nodes, place, node);
        self.numbers[place] = number;
        self.start = place;
        true
    }
}
