//! Changes of one node. They take no memory, but where children come. What stood before is answered, and put again takes them back.

ghost use Rattle.std.specs.Prelude.{◌≡◌, ◌≤◌, ◌∷◌, [], length, map, OnErr, OnOk};
ghost use Rattle.std.specs.String.{string_bytes};
ghost use Rattle.dom_store.specs.Edits.{changed, with_children, with_classes, with_own, with_put, with_what, without, without_nodes};
ghost use Rattle.dom_store.specs.Exact.{without_each};
ghost use Rattle.dom_store.specs.Standing.{children_at, parent_at};
ghost use Rattle.dom_store.specs.State.{state_of, what_of};
ghost use Rattle.dom_store.specs.Taking.{standing_in, turned, without_run};

use crate::document::Document;
use crate::node::{NodeKind, NodeNumbers};
use crate::siblings::{drop_each, drop_from, drop_run, put_at, put_one, turn, without_each};
use css_types::Declarations;
use letters::LetterList;
use std::alloc::{AllocError, Global};
use std::mem::replace;

/// How many children are taken out one by one at most.
const FEW: usize = 16;

impl Document {
    /// A node is this from now on.
    pub(crate) fn put_kind(&mut self, n: u32, kind: NodeKind) -> NodeKind
        ensures put { state_of self.new ≡ changed (state_of self.old) n (with_what (λ what. what_of kind)) }
        ensures back { changed (state_of self.new) n (with_what (λ what. what_of result)) ≡ state_of self.old }
    {
        match self.keys.get(&n) {
            Some(key) => replace(&mut self.nodes[*key].kind, kind),
            None => kind,
        }
    }

    /// The node's children are these from now on.
    pub(crate) fn put_children(&mut self, n: u32, children: NodeNumbers) -> NodeNumbers
        ensures put { state_of self.new ≡ changed (state_of self.old) n (with_children (λ before. children.items)) }
        ensures back { changed (state_of self.new) n (with_children (λ now. result.items)) ≡ state_of self.old }
    {
        match self.keys.get(&n) {
            Some(key) => replace(&mut self.nodes[*key].children, children),
            None => children,
        }
    }

    /// These come among the node's children, at the index, or nothing changes where memory runs out.
    pub(crate) fn put_in(
        &mut self,
        n: u32,
        index: usize,
        numbers: NodeNumbers,
    ) -> Result<(), AllocError>
        requires within { index ≤ length (children_at (state_of self.old) n) }
        ensures put { OnOk result (state_of self.new ≡ changed (state_of self.old) n (with_children (with_put index numbers.items))) }
        ensures same { OnErr result (state_of self.new ≡ state_of self.old) }
    {
        match self.keys.get(&n) {
            Some(key) => put_at(&mut self.nodes[*key].children, index, numbers),
            None => Ok(()),
        }
    }

    /// This one comes among the node's children, at the index, or nothing changes where memory runs out.
    pub(crate) fn put_child(&mut self, n: u32, index: usize, child: u32) -> Result<(), AllocError>
        requires within { index ≤ length (children_at (state_of self.old) n) }
        ensures put { OnOk result (state_of self.new ≡ changed (state_of self.old) n (with_children (with_put index (child ∷ [])))) }
        ensures same { OnErr result (state_of self.new ≡ state_of self.old) }
    {
        match self.keys.get(&n) {
            Some(key) => put_one(&mut self.nodes[*key].children, index, child),
            None => Ok(()),
        }
    }

    /// The node's child at one place comes to another.
    pub(crate) fn turn_children(&mut self, n: u32, from: usize, to: usize)
        ensures { state_of self.new ≡ changed (state_of self.old) n (with_children (turned from to)) }
    {
        if let Some(key) = self.keys.get(&n) {
            turn(&mut self.nodes[*key].children, from, to);
        }
    }

    /// So many of the node's children, from the index on, are its children no more. The nodes stay.
    pub(crate) fn drop_children(&mut self, n: u32, index: usize, count: usize)
        ensures { state_of self.new ≡ changed (state_of self.old) n (with_children (without_run index count)) }
    {
        if let Some(key) = self.keys.get(&n) {
            drop_run(&mut self.nodes[*key].children, index, count);
        }
    }

    /// A node isn't among this one's children from now on.
    pub(crate) fn drop_child(&mut self, n: u32, child: u32)
        ensures { state_of self.new ≡ changed (state_of self.old) n (with_children (without child)) }
    {
        if let Some(key) = self.keys.get(&n) {
            drop_from(&mut self.nodes[*key].children, child);
        }
    }

    /// Each of these isn't among this one's children from now on. Few are taken out where they stand, of many the others are
    /// listed anew. Where memory runs out, nothing changes.
    pub(crate) fn drop_named(
        &mut self,
        alloc: Global,
        n: u32,
        numbers: &[u32],
    ) -> Result<(), AllocError>
        ensures dropped { OnOk result (state_of self.new ≡ changed (state_of self.old) n (with_children (without_each numbers.now))) }
        ensures same { OnErr result (state_of self.new ≡ state_of self.old) }
    {
        if numbers.len() > FEW {
            let children = without_each(alloc, self.children(n), numbers)?;
            self.put_children(n, children);
        } else if let Some(key) = self.keys.get(&n) {
            drop_each(&mut self.nodes[*key].children, numbers);
        }
        Ok(())
    }

    /// The node stands in this parent from now on.
    pub(crate) fn put_parent(&mut self, n: u32, parent: Option<u32>)
        ensures put { state_of self.new ≡ changed (state_of self.old) n (standing_in parent) }
        ensures back { changed (state_of self.new) n (standing_in (parent_at (state_of self.old) n)) ≡ state_of self.old }
    {
        if let Some(key) = self.keys.get(&n) {
            self.nodes[*key].parent = parent;
        }
    }

    /// An element's own declarations are these from now on.
    pub(crate) fn put_own(&mut self, n: u32, own: Declarations) -> Declarations
        ensures put { state_of self.new ≡ changed (state_of self.old) n (with_what (with_own own.items)) }
        ensures back { changed (state_of self.new) n (with_what (with_own result.items)) ≡ state_of self.old }
    {
        match self.keys.get(&n) {
            Some(key) => match &mut self.nodes[*key].kind {
                NodeKind::Element { declarations, .. } => replace(declarations, own),
                NodeKind::Text { .. } => own,
            },
            None => own,
        }
    }

    /// An element's class words are these from now on.
    pub(crate) fn put_classes(&mut self, n: u32, words: LetterList) -> LetterList
        ensures put { state_of self.new ≡ changed (state_of self.old) n (with_what (with_classes (map (λ word. string_bytes word) words.items))) }
        ensures back { changed (state_of self.new) n (with_what (with_classes (map (λ word. string_bytes word) result.items))) ≡ state_of self.old }
    {
        match self.keys.get(&n) {
            Some(key) => match &mut self.nodes[*key].kind {
                NodeKind::Element { classes, .. } => replace(classes, words),
                NodeKind::Text { .. } => words,
            },
            None => words,
        }
    }

    /// A node goes. Its parent's children stay as they are.
    pub(crate) fn take_out(&mut self, n: u32)
        ensures { state_of self.new ≡ without_nodes (n ∷ []) (state_of self.old) }
    {
        if let Some(key) = self.keys.remove(&n) {
            self.nodes.remove(key);
        }
    }
}
