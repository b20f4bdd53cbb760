//! The arena (docs/PROFILE/boxes.md).

use crate::climb::mark_up;
use crate::entry::Entry;
use crate::free::free;
use crate::key::{BoxKey, index_of, key_of};
use crate::links::{detach_at, link};
use crate::write::{drop_text, forget_below, keep_at, put_node, put_text};
use box_gen::BoxNode;
use fragment_types::{Constraint, Fragment};
use slab::Slab;
use std::alloc::{AllocError, Global};
use std::marker::Model;

/// Boxes under their keys, each with its place among the others, whether it is marked, and what is kept for it.
#[derive(Drop)]
pub struct BoxArena<T> {
    pub(crate) boxes: Slab<Entry<T>>,
    pub(crate) alloc: Global,
}

impl<T> Model for BoxArena<T> {
    ghost use Rattle.slab.specs.Slab.{Slab};
    ghost use Rattle.box_arena.specs.declared.entry.Entry.{Entry};

    ghost Value = { Slab (Entry T) };

    ghost use Rattle.std.specs.Coded.{codes};
    ghost use Rattle.fragment_types.specs.contracts.Fragment as fragment;

    ghost coded = { Prim.hlevel (codes, fragment.the_row.coded, T.code) };

    ghost view = { λ a. a.boxes };

    ghost use Rattle.box_arena.specs.At.{IsSound};

    ghost invariant = { λ a. IsSound a.boxes.slots };
}

impl<T> BoxArena<T> {
    ghost use Rattle.std.specs.Prelude.{◌≡◌, ◌≤◌, ℕ, [], None, Some, IsSome, IsOk, OnOk, OnErr, option_copied, option_map};
    ghost use Rattle.slab.specs.Slab.{ContainsKey, HasRoomFor};
    ghost use Rattle.fragment_types.specs.Fragment.{piece_of};
    ghost use Rattle.box_arena.specs.At.{IsAbove, links_at, parent_at, first_at, next_at, node_at, node_of, text_at, kept_at};
    ghost use Rattle.box_arena.specs.Arena.{Attaches, Detaches, Inserts, Keeps, Marks};
    ghost use Rattle.box_arena.specs.Links.{IsIn, IsLinked};

    /// No boxes. Takes no memory.
    pub fn new(alloc: Global) -> BoxArena<T>
        ensures { result.slots ≡ [] }
    {
        BoxArena {
            boxes: Slab::new(alloc),
            alloc,
        }
    }

    /// Makes room for so many more boxes.
    pub fn reserve(&mut self, n: usize) -> Result<(), AllocError>
        ensures room { OnOk result (HasRoomFor self.new n) }
        ensures had_room { HasRoomFor self.old n → IsOk result }
        ensures grows { self.old.capacity ≤ self.new.capacity }
        ensures rest { self.new ≡ record self.old { capacity = self.new.capacity } }
    {
        self.boxes.reserve(n)?;
        Ok(())
    }

    /// Puts a box under a free key, for which there must be room: not attached, not marked, with nothing kept. Takes no
    /// memory.
    pub fn insert_reserved(&mut self, node: BoxNode) -> BoxKey
        requires { HasRoomFor self.old 1 }
        ensures inserts { Inserts self.old self.new result (node_of node) }
        ensures linked { IsLinked (links_at self.old.slots) }
    {
        let entry = Entry::new(self.alloc, node);
        let index = self.boxes.insert_reserved(entry);
        BoxKey { index }
    }

    /// The box.
    pub fn node(&self, key: BoxKey) -> &BoxNode
        requires { ContainsKey self.now key }
        ensures node { node_at self.now.slots key ≡ Some (node_of result.now) }
        ensures linked { IsLinked (links_at self.now.slots) }
    {
        &self.boxes[key.index].held.node
    }

    /// The box that it stands in; `None` exactly where it isn't attached.
    pub fn parent(&self, key: BoxKey) -> Option<BoxKey>
        requires { ContainsKey self.now key }
        ensures { result ≡ parent_at self.now.slots key }
    {
        key_of(self.boxes[key.index].links.parent)
    }

    /// Its first child; `None` exactly where it has none.
    pub fn first(&self, key: BoxKey) -> Option<BoxKey>
        requires { ContainsKey self.now key }
        ensures { result ≡ first_at self.now.slots key }
    {
        key_of(self.boxes[key.index].links.first)
    }

    /// The sibling behind it; `None` exactly where there is none.
    pub fn next(&self, key: BoxKey) -> Option<BoxKey>
        requires { ContainsKey self.now key }
        ensures { result ≡ next_at self.now.slots key }
    {
        key_of(self.boxes[key.index].links.next)
    }

    /// What was prepared of its text, if that is kept.
    pub fn text(&self, key: BoxKey) -> Option<&T>
        requires { ContainsKey self.now key }
        ensures { option_copied result ≡ text_at self.now.slots key }
    {
        self.boxes[key.index].held.text.as_ref()
    }

    /// What is kept for a constraint; `None` exactly where nothing unmarked is.
    pub fn kept(&self, key: BoxKey, c: Constraint) -> Option<&Fragment>
        requires { ContainsKey self.now key }
        ensures { option_map (λ f. piece_of f.now) result ≡ kept_at self.now.slots key c }
    {
        self.boxes[key.index].kept(c)
    }

    /// Keeps what was laid out for a constraint, in place of what was kept for it. What was kept of a marked box goes, and
    /// it is marked no more.
    pub fn keep(&mut self, key: BoxKey, c: Constraint, fragment: Fragment) -> Result<(), AllocError>
        requires { ContainsKey self.old key }
        ensures ok { OnOk result (Keeps self.old self.new key c (piece_of fragment)) }
        ensures err { OnErr result (self.new ≡ self.old) }
    {
        keep_at(&mut self.boxes, self.alloc, key.index, c, fragment)?;
        Ok(())
    }

    /// Puts a box that isn't attached among the children of a parent, before one of them or last. The parent must not be that
    /// box nor stand inside it. The parent and every box above it are marked. Takes no memory.
    pub fn attach(&mut self, parent: BoxKey, before: Option<BoxKey>, child: BoxKey)
        requires parent { ContainsKey self.old parent }
        requires child { ContainsKey self.old child }
        requires free { parent_at self.old.slots child ≡ None }
        requires apart { IsAbove self.old.slots child parent → ⊥ }
        requires before { IsIn (links_at self.old.slots) parent before }
        ensures attaches { Attaches self.old self.new parent before child }
        ensures linked { IsLinked (links_at self.old.slots) × IsLinked (links_at self.new.slots) }
    {
        mark_up(&mut self.boxes, parent.index);
        link(&mut self.boxes, parent.index, index_of(before), child.index);
    }

    /// Takes a box out of its parent. The old parent and every box above it are marked; the box and all inside it keep their
    /// results. Takes no memory.
    pub fn detach(&mut self, key: BoxKey)
        requires { IsSome (parent_at self.old.slots key) }
        ensures { (parent : ℕ) → parent_at self.old.slots key ≡ Some parent → Detaches self.old self.new parent key }
    {
        detach_at(&mut self.boxes, key.index);
    }

    /// Marks the box and every box above it: what is kept for them is out of date. Takes no memory.
    pub fn mark(&mut self, key: BoxKey)
        requires { ContainsKey self.old key }
        ensures { Marks self.old self.new key }
    {
        mark_up(&mut self.boxes, key.index);
    }
}

impl<T: Drop> BoxArena<T> {
    ghost use Rattle.std.specs.Prelude.{◌≡◌, None, Some};
    ghost use Rattle.slab.specs.Slab.{ContainsKey};
    ghost use Rattle.box_arena.specs.At.{node_at, node_of, parent_at};
    ghost use Rattle.box_arena.specs.Arena.{DropsText, Forgets, KeepsText, Releases, Restyles};

    /// Keeps what was prepared of its text. Takes no memory.
    pub fn keep_text(&mut self, key: BoxKey, text: T)
        requires { ContainsKey self.old key }
        ensures { KeepsText self.old self.new key text }
    {
        put_text(&mut self.boxes, key.index, text);
    }

    /// Drops what was prepared of its text, and marks the box and every box above it. Takes no memory.
    pub fn stale(&mut self, key: BoxKey)
        requires { ContainsKey self.old key }
        ensures { DropsText self.old self.new key }
    {
        mark_up(&mut self.boxes, key.index);
        drop_text(&mut self.boxes, key.index);
    }

    /// Drops all results and texts that are kept. Takes no memory.
    pub fn forget(&mut self)
        ensures { Forgets self.old self.new }
    {
        let slots = self.boxes.capacity();
        forget_below(&mut self.boxes, slots);
    }

    /// Frees a box that isn't attached, and all boxes inside it. Takes no memory.
    pub fn release(&mut self, key: BoxKey)
        requires live { ContainsKey self.old key }
        requires free { parent_at self.old.slots key ≡ None }
        ensures { Releases self.old self.new key }
    {
        free(&mut self.boxes, key.index);
    }

    /// Puts the box anew, which keeps its children, and gives the old one back. Its text is dropped, and it and every box
    /// above it are marked. Takes no memory.
    pub fn restyle(&mut self, key: BoxKey, node: BoxNode) -> BoxNode
        requires { ContainsKey self.old key }
        ensures old { node_at self.old.slots key ≡ Some (node_of result) }
        ensures new { Restyles self.old self.new key (node_of node) }
    {
        mark_up(&mut self.boxes, key.index);
        put_node(&mut self.boxes, key.index, node)
    }
}
