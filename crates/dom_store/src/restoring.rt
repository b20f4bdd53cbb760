//! Nodes that went stand again, each under its number (DOM, 4.2.3, narrowed).

ghost use Rattle.std.specs.Prelude.{◌≡◌, ◌<◌, ◌≤◌, ◌++◌, ◌∷◌, [], length, map, None, OnErr, OnOk};
ghost use Rattle.dom_store.specs.Edits.{changed, with_children, with_put, without_nodes};
ghost use Rattle.dom_store.specs.Exact.{numbered_as, numbers_under, restore};
ghost use Rattle.dom_store.specs.Exactly.{AppliesExactly, CanStand, IsSameBut, with_last, with_standing};
ghost use Rattle.dom_store.specs.Standing.{children_at};
ghost use Rattle.dom_store.specs.State.{state_of};

use crate::copies::copy_of_what;
use crate::document::Document;
use crate::edit::{Before, Change};
use crate::editing::concerned_alone;
use crate::exact::Numbered;
use crate::node::{Node, NodeNumbers};
use crate::siblings::put_end;
use std::alloc::{AllocError, Global};

impl Document {
    /// Nodes that went stand again: those with this parent among its children, the first of them at the index.
    pub(crate) fn restore(
        &mut self,
        alloc: Global,
        parent: u32,
        index: u32,
        nodes: &[Numbered],
    ) -> Result<Change, AllocError>
        requires within { index ≤ length (children_at (state_of self.old) parent) }
        requires stand { CanStand (state_of self.old) (parent ∷ []) (map numbered_as nodes.now) }
        ensures { AppliesExactly (state_of self.old) (state_of self.new) (restore parent index (map numbered_as nodes.now)) result }
    {
        let elements = concerned_alone(alloc, parent)?;
        let mut tops = Vec::new(alloc);
        self.restore_each(alloc, parent, nodes, &mut tops)?;
        self.place_restored(parent, index as usize, tops, nodes)?;
        Ok(Change {
            elements,
            before: Before::NotKept,
        })
    }

    /// These tops come among the parent's children, at the index, or the nodes are gone where memory runs out.
    fn place_restored(
        &mut self,
        parent: u32,
        index: usize,
        tops: NodeNumbers,
        nodes: &[Numbered],
    ) -> Result<(), AllocError>
        requires within { index ≤ length (children_at (state_of self.old) parent) }
        ensures put { OnOk result (state_of self.new ≡ changed (state_of self.old) parent (with_children (with_put index tops.items))) }
        ensures gone { OnErr result (state_of self.new ≡ without_nodes (map (λ node. node.number) nodes.now) (state_of self.old)) }
    {
        let placed = self.put_in(parent, index, tops);
        if placed.is_err() {
            self.take_each_out(nodes);
        }
        placed
    }

    /// These nodes stand again, or none of them. Those with this parent come behind the tops; its own children stay as they
    /// are.
    fn restore_each(
        &mut self,
        alloc: Global,
        parent: u32,
        nodes: &[Numbered],
        tops: &mut NodeNumbers,
    ) -> Result<(), AllocError>
        requires stand { CanStand (state_of self.old) (parent ∷ []) (map numbered_as nodes.now) }
        ensures stand { OnOk result (state_of self.new ≡ with_standing (map numbered_as nodes.now) (state_of self.old)) }
        ensures tops { OnOk result (tops.new.items ≡ tops.old.items ++ numbers_under parent (map numbered_as nodes.now)) }
        ensures same { OnErr result (state_of self.new ≡ state_of self.old) }
    {
        let restored = self.restore_in_turn(alloc, parent, nodes, tops);
        if restored.is_err() {
            self.take_each_out(nodes);
        }
        restored
    }

    /// These nodes stand again, one after the other. Where memory runs out, some of them may stand.
    fn restore_in_turn(
        &mut self,
        alloc: Global,
        parent: u32,
        nodes: &[Numbered],
        tops: &mut NodeNumbers,
    ) -> Result<(), AllocError>
        requires stand { CanStand (state_of self.old) (parent ∷ []) (map numbered_as nodes.now) }
        ensures stand { OnOk result (state_of self.new ≡ with_standing (map numbered_as nodes.now) (state_of self.old)) }
        ensures tops { OnOk result (tops.new.items ≡ tops.old.items ++ numbers_under parent (map numbered_as nodes.now)) }
        ensures others { OnErr result (IsSameBut (map (λ node. node.number) nodes.now) (state_of self.old) (state_of self.new)) }
    {
        for node in nodes {
            self.restore_one(alloc, parent, node, tops)?;
        }
        Ok(())
    }

    /// A node stands again, behind the tops where this is its parent, else last among the children of its parent. Where
    /// memory runs out, it may stand.
    fn restore_one(
        &mut self,
        alloc: Global,
        parent: u32,
        node: &Numbered,
        tops: &mut NodeNumbers,
    ) -> Result<(), AllocError>
        requires drawn { node.now.number < self.old.next }
        requires free { (state_of self.old).node_at node.now.number ≡ None }
        ensures stand { OnOk result (state_of self.new ≡ with_last parent (numbered_as node.now) (state_of self.old)) }
        ensures tops { OnOk result (tops.new.items ≡ tops.old.items ++ numbers_under parent (numbered_as node.now ∷ [])) }
        ensures others { OnErr result (IsSameBut (node.now.number ∷ []) (state_of self.old) (state_of self.new)) }
    {
        let kind = copy_of_what(alloc, &node.kind)?;
        self.put(
            node.number,
            Node {
                parent: Some(node.parent),
                children: Vec::new(alloc),
                kind,
            },
        )?;
        if node.parent == parent {
            put_end(tops, node.number)
        } else {
            self.put_last(node.parent, node.number)
        }
    }

    /// A child comes last among the node's children, or nothing changes where memory runs out.
    fn put_last(&mut self, n: u32, child: u32) -> Result<(), AllocError>
        ensures put { OnOk result (state_of self.new ≡ changed (state_of self.old) n (with_children (λ children. children ++ child ∷ []))) }
        ensures same { OnErr result (state_of self.new ≡ state_of self.old) }
    {
        match self.keys.get(&n) {
            Some(key) => put_end(&mut self.nodes[*key].children, child),
            None => Ok(()),
        }
    }

    /// These nodes go. The children of others stay as they are.
    fn take_each_out(&mut self, nodes: &[Numbered])
        ensures { state_of self.new ≡ without_nodes (map (λ node. node.number) nodes.now) (state_of self.old) }
    {
        for node in nodes {
            self.take_out(node.number);
        }
    }
}
