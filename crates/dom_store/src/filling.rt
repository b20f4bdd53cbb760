//! Documents get their nodes one by one.

ghost use Rattle.std.specs.Prelude.{◌≡◌, ◌+◌, ◌<◌, ◌≤◌, ◌^◌, ℕ, None, OnErr, OnOk};
ghost use Rattle.dom_store.specs.Building.{Adds, IsFilledFrom, with_next};
ghost use Rattle.dom_store.specs.Exactly.{with_node};
ghost use Rattle.dom_store.specs.State.{entry_of, state_of};

use crate::document::Document;
use crate::node::Node;
use slab::Slab;
use std::alloc::{AllocError, Global};
use std::collections::BTreeMap;

impl Document {
    /// The document of no nodes. It takes no memory.
    pub(crate) fn empty(alloc: Global) -> Document
        ensures none { (number : ℕ) → (state_of result).node_at number ≡ None }
        ensures next { result.next ≡ 0 }
    {
        Document {
            nodes: Slab::new(alloc),
            keys: BTreeMap::new(alloc),
            next: 0,
        }
    }

    /// Gives the next number to this node.
    pub(crate) fn add(&mut self, node: Node) -> Result<(), AllocError>
        requires { self.old.next + 1 < 2 ^ 32 }
        ensures adds { OnOk result (Adds (state_of self.old) (state_of self.new) (entry_of node)) }
        ensures same { OnErr result (state_of self.new ≡ state_of self.old) }
    {
        let number = self.next;
        self.set_next(number + 1);
        let put = self.put(number, node);
        if put.is_err() {
            self.set_next(number);
        }
        put
    }

    /// Puts a node under this number, which was drawn and under which none lives.
    pub(crate) fn put(&mut self, number: u32, node: Node) -> Result<(), AllocError>
        requires drawn { number < self.old.next }
        requires free { (state_of self.old).node_at number ≡ None }
        ensures put { OnOk result (state_of self.new ≡ with_node number (entry_of node) (state_of self.old)) }
        ensures same { OnErr result (state_of self.new ≡ state_of self.old) }
    {
        self.nodes.reserve(1)?;
        let key = self.nodes.vacant_key();
        self.keys.insert(number, key)?;
        self.nodes.insert_reserved(node);
        Ok(())
    }

    /// This number is given next; no node has it or a greater one.
    pub(crate) fn set_next(&mut self, next: u32)
        requires { (number : ℕ) → next ≤ number → (state_of self.old).node_at number ≡ None }
        ensures { state_of self.new ≡ with_next next (state_of self.old) }
    {
        self.next = next;
    }

    /// The nodes from this number on go, and it is given next. It takes no memory.
    pub(crate) fn give_back(&mut self, first: u32)
        ensures filled { IsFilledFrom (state_of self.old) (state_of self.new) }
        ensures next { self.new.next ≡ first }
    {
        for n in first..self.next {
            self.take_out(n);
        }
        self.set_next(first);
    }
}
