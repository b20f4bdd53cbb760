//! What is kept of a box, handed from one arena to another.

use crate::arena::BoxArena;
use crate::key::BoxKey;
use crate::write::{put_results_at, take_results_at, take_text_at};
use box_gen::BoxNode;

impl<T> BoxArena<T> {
    ghost use Rattle.std.specs.Prelude.{◌≡◌, IfSome, IsTrue, None, false, option_map};
    ghost use Rattle.slab.specs.Slab.{ContainsKey};
    ghost use Rattle.fragment_types.specs.declared.constraint.Constraint.{Constraint};
    ghost use Rattle.box_arena.specs.At.{kept_at, node_at, node_of};
    ghost use Rattle.box_arena.specs.Reusing.{around_at};

    /// The box under a number, if there is one.
    pub(crate) fn box_at(&self, index: usize) -> Option<&BoxNode>
        ensures node { option_map (λ node. node_of node.now) result ≡ node_at self.now.slots index }
        ensures live { IfSome result (λ node. ContainsKey self.now index) }
    {
        match self.boxes.get(index) {
            Some(entry) => Some(&entry.held.node),
            None => None,
        }
    }

    /// Whether any result is kept for it: not where it is marked.
    pub(crate) fn keeps_results(&self, key: BoxKey) -> bool
        requires { ContainsKey self.now key }
        ensures some { IsTrue result → ((c : Constraint) → kept_at self.now.slots key c ≡ None) → ⊥ }
        ensures none { result ≡ false → (c : Constraint) → kept_at self.now.slots key c ≡ None }
    {
        self.boxes[key.index].keeps_results()
    }

    /// The box that it stands in, if it is attached.
    pub(crate) fn around(&self, key: BoxKey) -> Option<&BoxNode>
        requires { ContainsKey self.now key }
        ensures { option_map (λ node. node_of node.now) result ≡ around_at self.now.slots key }
    {
        match self.boxes[key.index].links.parent {
            Some(parent) => Some(&self.boxes[parent].held.node),
            None => None,
        }
    }
}

impl<T: Drop> BoxArena<T> {
    ghost use Rattle.std.specs.Prelude.{◌≡◌, None};
    ghost use Rattle.slab.specs.Slab.{ContainsKey};
    ghost use Rattle.box_arena.specs.At.{kept_at, text_at};
    ghost use Rattle.box_arena.specs.Arena.{LosesText, PutsResults};

    /// Takes what was prepared of its text. Takes no memory.
    pub fn take_text(&mut self, key: BoxKey) -> Option<T>
        requires { ContainsKey self.old key }
        ensures text { result ≡ text_at self.old.slots key }
        ensures rest { LosesText self.old self.new key }
    {
        take_text_at(&mut self.boxes, key.index)
    }

    /// Puts what is kept for a box of another arena in the place of what is kept for this one, which is marked no more; for the
    /// other one nothing is kept then. Takes no memory.
    pub fn take_results(&mut self, key: BoxKey, other: &mut BoxArena<T>, from: BoxKey)
        requires here { ContainsKey self.old key }
        requires there { ContainsKey other.old from }
        ensures taken { PutsResults self.old self.new key (kept_at other.old.slots from) }
        ensures given { PutsResults other.old other.new from (λ c. None) }
    {
        let results = take_results_at(&mut other.boxes, other.alloc, from.index);
        put_results_at(&mut self.boxes, key.index, results);
    }
}
