//! Nodes are moved, with all below them (DOM, 4.2.3, narrowed).

ghost use Rattle.std.specs.Prelude.{◌≡◌, ◌≤◌, if◌then◌else◌, length, nat_eq, None, Some, IfOk, IfSome, OnErr, OnOk};
ghost use Rattle.dom_store.specs.Edited.{Applies, Judges, refused_for};
ghost use Rattle.dom_store.specs.Edits.{both, changed, changed_if, move_to, with_children, with_moved, without};
ghost use Rattle.dom_store.specs.Refusals.{first_of, may_hold, placing, refusal, too_deep_moved};
ghost use Rattle.dom_store.specs.Standing.{children_at, parent_at};
ghost use Rattle.dom_store.specs.State.{state_of, what_of};
ghost use Rattle.dom_store.specs.Taking.{IsStanding, before_of, parent_left, stood_of, taken_back, unplaced};

use crate::depths::GREATEST_DEPTH;
use crate::document::Document;
use crate::edit::{Before, Change, Stood};
use crate::error::EditError;
use crate::node::{NodeKind, NodeNumbers};
use crate::siblings::{Standing, least, put_one, standing_among, without};
use html_tokens::Tag;
use std::alloc::{AllocError, Global};

impl Document {
    /// Makes a node the child of this parent, at the index among the others.
    pub(crate) fn move_to(
        &mut self,
        alloc: Global,
        n: u32,
        parent: u32,
        index: u32,
    ) -> Result<Change, EditError>
        ensures applies { Applies (state_of self.old) (state_of self.new) (move_to n parent index) result }
        ensures back { IfOk result (λ change. taken_back (before_of change.before) (state_of self.new) ≡ state_of self.old) }
    {
        let standing = self.check_move(alloc, n, parent, index)?;
        let elements = self.concerned_both(alloc, n, parent)?;
        let from = self.parent(n);
        let old = parent_left(from, parent);
        let others = self.others_in(alloc, old, n)?;
        let stood = self.enter(parent, index as usize, n, standing)?;
        let left = self.put_children_if(old, others);
        self.put_parent(n, Some(parent));
        let before = Before::Move {
            node: n,
            from,
            left,
            parent,
            index,
            stood,
        };
        Ok(Change { elements, before })
    }

    /// A node comes among this parent's children, at the index among the others, where it stands there so. It tells where
    /// it stood. Where it stood once, the children between the two places move, and no memory is taken.
    fn enter(
        &mut self,
        parent: u32,
        index: usize,
        n: u32,
        standing: Standing,
    ) -> Result<Stood, AllocError>
        requires standing { IsStanding n (children_at (state_of self.old) parent) standing }
        requires within { index ≤ length (without n (children_at (state_of self.old) parent)) }
        ensures put { OnOk result (state_of self.new ≡ changed (state_of self.old) parent (with_children (with_moved n index))) }
        ensures back { IfOk result (λ stood. changed (state_of self.new) parent (with_children (unplaced (stood_of stood) index)) ≡ state_of self.old) }
        ensures same { OnErr result (state_of self.new ≡ state_of self.old) }
    {
        match standing {
            Standing::Nowhere => {
                self.put_child(parent, index, n)?;
                Ok(Stood::Nowhere)
            }
            Standing::At(place) => {
                self.turn_children(parent, place, index);
                Ok(Stood::At(place))
            }
            Standing::Among(others) => {
                let mut children = others;
                put_one(&mut children, index, n)?;
                Ok(Stood::Among(self.put_children(parent, children)))
            }
        }
    }

    /// The children of this node, where there is one, but for this child.
    fn others_in(
        &self,
        alloc: Global,
        parent: Option<u32>,
        child: u32,
    ) -> Result<NodeNumbers, AllocError>
        ensures { IfOk result (λ others. IfSome parent (λ p. others.items ≡ without child (children_at (state_of self.now) p))) }
    {
        match parent {
            Some(parent) => {
                let others = without(alloc, self.children(parent), child)?;
                Ok(others)
            }
            None => Ok(Vec::new(alloc)),
        }
    }

    /// The children of this node, where there is one, are these from now on.
    pub(crate) fn put_children_if(
        &mut self,
        parent: Option<u32>,
        children: NodeNumbers,
    ) -> NodeNumbers
        ensures put { state_of self.new ≡ changed_if (state_of self.old) parent (with_children (λ before. children.items)) }
        ensures back { changed_if (state_of self.new) parent (with_children (λ now. result.items)) ≡ state_of self.old }
    {
        match parent {
            Some(parent) => self.put_children(parent, children),
            None => children,
        }
    }

    /// Whether a node may be moved there, and where it stands among the parent's children.
    pub(crate) fn check_move(
        &self,
        alloc: Global,
        n: u32,
        parent: u32,
        index: u32,
    ) -> Result<Standing, EditError>
        ensures judges { Judges (refusal (state_of self.now) (move_to n parent index)) result }
        ensures standing { IfOk result (λ standing. IsStanding n (children_at (state_of self.now) parent) standing) }
        ensures within { IfOk result (λ standing. index ≤ length (without n (children_at (state_of self.now) parent))) }
    {
        self.check_placing(n, parent)?;
        let children = self.children(parent);
        let standing = standing_among(alloc, children, n)?;
        if index as usize > standing.count_others(children.len()) {
            return Err(EditError::BadIndex);
        }
        self.check_move_depth(alloc, n, parent)?;
        Ok(standing)
    }

    /// Whether a node may stand in this parent, wherever in it, and however deep.
    fn check_placing(&self, n: u32, parent: u32) -> Result<(), EditError>
        ensures { refused_for result ≡ first_of (placing (state_of self.now) n parent) }
    {
        if self.node(n).is_none() {
            return Err(EditError::NoNode);
        }
        let Some(holder) = self.node(parent) else {
            return Err(EditError::NoNode);
        };
        if n <= 1 {
            return Err(EditError::IsRoot);
        }
        if parent == 0 {
            return Err(EditError::IsRoot);
        }
        if !may_hold(&holder.kind) {
            return Err(EditError::NotElement);
        }
        if self.is_within(parent, n) {
            return Err(EditError::Inside);
        }
        Ok(())
    }

    /// Whether a node and those below it would stand deep enough in this parent.
    fn check_move_depth(&self, alloc: Global, n: u32, parent: u32) -> Result<(), EditError>
        ensures { Judges (too_deep_moved (state_of self.now) n parent) result }
    {
        let mut past = Vec::new(alloc);
        let skipped = GREATEST_DEPTH - self.depth(parent);
        self.collect(skipped, GREATEST_DEPTH, n, &mut past)?;
        match least(&past) {
            Some(number) => Err(EditError::TooDeep(number)),
            None => Ok(()),
        }
    }

    /// What concerns the node's parent and this one.
    fn concerned_both(&self, alloc: Global, n: u32, parent: u32) -> Result<NodeNumbers, AllocError>
        ensures { IfOk result (λ elements. elements.items ≡ both (parent_at (state_of self.now) n) parent) }
    {
        let mut elements = Vec::new(alloc);
        if let Some(old) = self.parent(n) {
            if old != parent {
                elements.push(old)?;
            }
        }
        elements.push(parent)?;
        Ok(elements)
    }
}

/// The parent that a node leaves where it moves into this one.
pub(crate) fn parent_left(from: Option<u32>, parent: u32) -> Option<u32>
    ensures { result ≡ parent_left from parent }
{
    match from {
        Some(old) => other_than(parent, old),
        None => None,
    }
}

fn other_than(parent: u32, old: u32) -> Option<u32>
    ensures { result ≡ if nat_eq old parent then None else Some old }
{
    if old == parent { None } else { Some(old) }
}

/// Whether nodes may stand in such a node.
pub(crate) fn may_hold(kind: &NodeKind) -> bool
    ensures { result ≡ may_hold (what_of kind.now) }
{
    match kind {
        NodeKind::Element { tag: Tag::Br, .. } => false,
        NodeKind::Element { .. } => true,
        NodeKind::Text { .. } => false,
    }
}
