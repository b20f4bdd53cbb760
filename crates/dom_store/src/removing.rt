//! Nodes go, with all below them (DOM, 4.2.3, narrowed).

ghost use Rattle.std.specs.Prelude.{◌≡◌, IfOk};
ghost use Rattle.dom_store.specs.Edited.{Applies};
ghost use Rattle.dom_store.specs.Edits.{changed_if, remove, with_children, without, without_nodes};
ghost use Rattle.dom_store.specs.Standing.{parent_at};
ghost use Rattle.dom_store.specs.State.{state_of};
ghost use Rattle.dom_store.specs.Taking.{before_of, not_kept};

use crate::document::Document;
use crate::edit::{Before, Change};
use crate::error::EditError;
use std::alloc::Global;

impl Document {
    /// Takes a node out, with all below it.
    pub(crate) fn remove(&mut self, alloc: Global, n: u32) -> Result<Change, EditError>
        ensures applies { Applies (state_of self.old) (state_of self.new) (remove n) result }
        ensures back { IfOk result (λ change. before_of change.before ≡ not_kept) }
    {
        self.check_removal(n)?;
        let elements = self.concerned_above(alloc, n)?;
        let gone = self.descendants(alloc, n)?;
        self.leave_parent(n);
        self.take_all_out(&gone);
        Ok(Change {
            elements,
            before: Before::NotKept,
        })
    }

    /// Takes a node from its parent's children. It takes no memory.
    fn leave_parent(&mut self, n: u32)
        ensures { state_of self.new ≡ changed_if (state_of self.old) (parent_at (state_of self.old) n) (with_children (without n)) }
    {
        if let Some(parent) = self.parent(n) {
            self.drop_child(parent, n);
        }
    }

    /// These nodes go. The children of others stay as they are.
    pub(crate) fn take_all_out(&mut self, numbers: &[u32])
        ensures { state_of self.new ≡ without_nodes numbers.now (state_of self.old) }
    {
        for n in numbers {
            self.take_out(*n);
        }
    }
}
