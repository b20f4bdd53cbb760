//! Exact edits are done (DOM, 4.2.3, narrowed).

ghost use Rattle.dom_store.specs.Exact.{exact_of, take_nodes};
ghost use Rattle.dom_store.specs.Exactly.{AppliesExactly, CanBeDone, IsUnrefused};
ghost use Rattle.dom_store.specs.State.{state_of};

use crate::depths::GREATEST_DEPTH;
use crate::document::Document;
use crate::edit::{Before, Change};
use crate::editing::concerned_alone;
use crate::error::EditError;
use crate::exact::ExactEdit;
use std::alloc::{AllocError, Global};

impl Document {
    /// Does an exact edit whole. Nodes that come have their numbers, and none is drawn. Where memory runs out, nothing
    /// changes. What it did is led back by the step of which it is one half, not by `take_back`.
    ///
    /// An edit with a namesake among the edits of the tree has to be one that `apply` wouldn't refuse. Nodes can be restored
    /// where each number was drawn, none lives and none stands twice, where each one's parent is the named one or stands
    /// before it in the list, and where the index isn't above the count of the parent's children.
    ///
    /// The cost: that of the namesake; for nodes that are taken or restored, the logarithm of the count of nodes for each
    /// of them, and the children of the parent.
    pub fn apply_exact(&mut self, alloc: Global, edit: &ExactEdit) -> Result<Change, AllocError>
        requires can { CanBeDone (state_of self.old) (exact_of edit.now) }
        ensures applies { AppliesExactly (state_of self.old) (state_of self.new) (exact_of edit.now) result }
    {
        match edit {
            ExactEdit::Text { node, text } => unrefused(self.set_text(alloc, *node, text)),
            ExactEdit::Style { node, declarations } => {
                unrefused(self.set_style(alloc, *node, declarations))
            }
            ExactEdit::Class { node, words } => unrefused(self.set_class(alloc, *node, words)),
            ExactEdit::Move {
                node,
                parent,
                index,
            } => unrefused(self.move_to(alloc, *node, *parent, *index)),
            ExactEdit::Take { parent, nodes } => self.take_nodes(alloc, *parent, nodes),
            ExactEdit::Restore {
                parent,
                index,
                nodes,
            } => self.restore(alloc, *parent, *index, nodes),
        }
    }

    /// These children of a parent go, each with all below it.
    fn take_nodes(
        &mut self,
        alloc: Global,
        parent: u32,
        numbers: &[u32],
    ) -> Result<Change, AllocError>
        ensures { AppliesExactly (state_of self.old) (state_of self.new) (take_nodes parent numbers.now) result }
    {
        let elements = concerned_alone(alloc, parent)?;
        let mut gone = Vec::new(alloc);
        self.collect_all(0, GREATEST_DEPTH, numbers, &mut gone)?;
        self.drop_named(alloc, parent, numbers)?;
        self.take_all_out(&gone);
        Ok(Change {
            elements,
            before: Before::NotKept,
        })
    }
}

/// What an edit that nothing refuses answers: that it was done, or that memory ran out.
fn unrefused(answer: Result<Change, EditError>) -> Result<Change, AllocError>
    ensures { IsUnrefused answer result }
{
    match answer {
        Ok(change) => Ok(change),
        Err(_) => Err(AllocError),
    }
}
