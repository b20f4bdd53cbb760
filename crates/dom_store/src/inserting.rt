//! Nodes are inserted (DOM, 4.2.3, narrowed).

ghost use Rattle.std.specs.Prelude.{◌≡◌, ◌+◌, ◌<◌, ◌≤◌, ◌^◌, ℕ, [], length, map, IfOk, IfSome, OnErr, OnOk};
ghost use Rattle.html_read.specs.Values.{nodes_of};
ghost use Rattle.dom_store.specs.Building.{Grows, FollowParents, added_under, numbers_at};
ghost use Rattle.dom_store.specs.Edited.{Applies, IsFitting, Judges, refused_for};
ghost use Rattle.dom_store.specs.Edits.{changed, insert, parent_under, with_children, with_put};
ghost use Rattle.dom_store.specs.Opening.{children_from, greatest_count};
ghost use Rattle.dom_store.specs.Refusals.{entering, first_of, refusal, room_left, too_deep_under, too_many};
ghost use Rattle.dom_store.specs.Standing.{children_at};
ghost use Rattle.dom_store.specs.State.{state_of};
ghost use Rattle.dom_store.specs.Taking.{before_of, taken_back, up_to};

use crate::children::{children_of, tops_of};
use crate::copies::node_of;
use crate::depths::first_too_deep;
use crate::document::Document;
use crate::edit::{Before, Change, NewNodes};
use crate::editing::concerned_alone;
use crate::error::EditError;
use crate::moving::may_hold;
use crate::node::NodeNumbers;
use crate::opening::GREATEST_COUNT;
use css_types::Declarations;
use html_read::ReadNode;
use std::alloc::{AllocError, Global};

impl Document {
    /// Makes nodes the children of this parent, the first of them at the index.
    pub(crate) fn insert(
        &mut self,
        alloc: Global,
        parent: u32,
        index: u32,
        nodes: &NewNodes,
    ) -> Result<Change, EditError>
        requires fitting { IsFitting (insert parent index (nodes_of nodes.now.read.items) (map (λ own. own.items) nodes.now.styles.items)) }
        ensures applies { Applies (state_of self.old) (state_of self.new) (insert parent index (nodes_of nodes.now.read.items) (map (λ own. own.items) nodes.now.styles.items)) result }
        ensures back { IfOk result (λ change. taken_back (before_of change.before) (state_of self.new) ≡ state_of self.old) }
    {
        self.check_insert(alloc, parent, index, &nodes.read)?;
        let elements = concerned_alone(alloc, parent)?;
        let next = self.next;
        let tops = tops_of(alloc, &nodes.read, next)?;
        let count = tops.len();
        self.add_all(alloc, parent, &nodes.read, &nodes.styles)?;
        self.place_added(next, parent, index as usize, tops)?;
        let before = Before::Insert {
            parent,
            index,
            count,
            next,
        };
        Ok(Change { elements, before })
    }

    /// These nodes, which were added last, from the first of these numbers on, come among the parent's children, at the
    /// index, or are gone where memory runs out.
    fn place_added(
        &mut self,
        first: u32,
        parent: u32,
        index: usize,
        tops: NodeNumbers,
    ) -> Result<(), AllocError>
        requires within { index ≤ length (children_at (state_of self.old) parent) }
        ensures put { OnOk result (state_of self.new ≡ changed (state_of self.old) parent (with_children (with_put index tops.items))) }
        ensures gone { OnErr result (state_of self.new ≡ up_to first (state_of self.old)) }
    {
        let placed = self.put_in(parent, index, tops);
        if placed.is_err() {
            self.give_back(first);
        }
        placed
    }

    /// Gives the next numbers to these nodes, in order, or to none. Those that stand in no other of them stand in this
    /// parent, of which the children stay as they are.
    fn add_all(
        &mut self,
        alloc: Global,
        parent: u32,
        nodes: &[ReadNode],
        styles: &[Declarations],
    ) -> Result<(), AllocError>
        requires few { length nodes.now ≤ greatest_count }
        requires room { self.old.next + length nodes.now < 2 ^ 32 }
        requires follow { FollowParents (nodes_of nodes.now) }
        requires styles { length styles.now ≡ length nodes.now }
        requires parent { parent < self.old.next }
        ensures added { OnOk result (state_of self.new ≡ added_under (state_of self.old) parent (nodes_of nodes.now) (map (λ own. own.items) styles.now)) }
        ensures same { OnErr result (state_of self.new ≡ state_of self.old) }
    {
        let first = self.next;
        let lists = children_of(alloc, nodes, first)?;
        let added = self.add_each(alloc, parent, nodes, styles, lists);
        if added.is_err() {
            self.give_back(first);
        }
        added
    }

    /// Gives the next numbers to these nodes, in order, each with these children. Those that stand in no other of them
    /// stand in this parent, of which the children stay as they are. Where memory runs out, some may have been given
    /// numbers.
    fn add_each(
        &mut self,
        alloc: Global,
        parent: u32,
        nodes: &[ReadNode],
        styles: &[Declarations],
        lists: Vec<NodeNumbers>,
    ) -> Result<(), AllocError>
        requires few { length nodes.now ≤ greatest_count }
        requires room { self.old.next + length nodes.now < 2 ^ 32 }
        requires follow { FollowParents (nodes_of nodes.now) }
        requires styles { length styles.now ≡ length nodes.now }
        requires count { length lists.items ≡ length nodes.now }
        requires lists { (place : ℕ) → numbers_at lists.items place ≡ children_from self.old.next place (nodes_of nodes.now) }
        requires parent { parent < self.old.next }
        ensures added { OnOk result (state_of self.new ≡ added_under (state_of self.old) parent (nodes_of nodes.now) (map (λ own. own.items) styles.now)) }
        ensures grown { OnErr result (Grows (state_of self.old) (state_of self.new)) }
    {
        let first = self.next;
        for children in lists {
            let place = (self.next - first) as usize;
            let read = &nodes[place];
            let mut node = node_of(alloc, read, &styles[place], children)?;
            node.parent = Some(parent_under(parent, first, read.parent));
            self.add(node)?;
        }
        Ok(())
    }

    /// Whether these nodes may be inserted there.
    pub(crate) fn check_insert(
        &self,
        alloc: Global,
        parent: u32,
        index: u32,
        nodes: &[ReadNode],
    ) -> Result<(), EditError>
        requires follow { FollowParents (nodes_of nodes.now) }
        ensures { Judges (refusal (state_of self.now) (insert parent index (nodes_of nodes.now) [])) result }
    {
        self.check_entering(parent, index)?;
        self.check_count(nodes.len())?;
        self.check_new_depths(alloc, parent, nodes)?;
        Ok(())
    }

    /// Whether nodes may stand in this parent, from the index on.
    fn check_entering(&self, parent: u32, index: u32) -> Result<(), EditError>
        ensures { refused_for result ≡ first_of (entering (state_of self.now) parent index) }
    {
        let Some(holder) = self.node(parent) else {
            return Err(EditError::NoNode);
        };
        if parent == 0 {
            return Err(EditError::IsRoot);
        }
        if !may_hold(&holder.kind) {
            return Err(EditError::NotElement);
        }
        if index as usize > holder.children.len() {
            return Err(EditError::BadIndex);
        }
        Ok(())
    }

    /// Whether so many nodes may be inserted.
    fn check_count(&self, count: usize) -> Result<(), EditError>
        ensures { refused_for result ≡ too_many (state_of self.now) count }
    {
        let room = self.room_left();
        if count > room as usize {
            return Err(EditError::TooManyNodes(self.next + room));
        }
        Ok(())
    }

    /// How many nodes may still be inserted.
    fn room_left(&self) -> u32
        ensures value { result ≡ room_left (state_of self.now) }
        ensures numbers { self.now.next + result < 2 ^ 32 }
    {
        let nodes = (GREATEST_COUNT as usize).saturating_sub(self.keys.len()) as u32;
        nodes.min(u32::MAX - self.next)
    }

    /// Whether these nodes would stand deep enough in this parent.
    fn check_new_depths(
        &self,
        alloc: Global,
        parent: u32,
        nodes: &[ReadNode],
    ) -> Result<(), EditError>
        requires few { length nodes.now ≤ greatest_count }
        requires room { self.now.next + length nodes.now < 2 ^ 32 }
        requires follow { FollowParents (nodes_of nodes.now) }
        ensures { Judges (too_deep_under (state_of self.now) parent (nodes_of nodes.now)) result }
    {
        match first_too_deep(alloc, nodes, self.depth(parent))? {
            Some(place) => Err(EditError::TooDeep(self.next + place as u32)),
            None => Ok(()),
        }
    }
}

/// The number of the node in which an inserted one stands.
pub(crate) fn parent_under(parent: u32, first: u32, place: Option<usize>) -> u32
    requires { IfSome place (λ p. first + p < 2 ^ 32) }
    ensures { result ≡ parent_under parent first place }
{
    match place {
        Some(place) => first + place as u32,
        None => parent,
    }
}
