//! The boxes of a document that was edited.

ghost use Rattle.std.specs.Prelude.{◌≡◌, ◌+◌, ◌≤◌, ℕ, IfOk, [], ◌∷◌, length, take, drop};
ghost use Rattle.html_read.specs.Values.{nodes_of};
ghost use Rattle.dom_store.specs.Edited.{edit_of};
ghost use Rattle.dom_store.specs.Standing.{children_at, parent_at};
ghost use Rattle.dom_store.specs.State.{IsSaidState, State, state_of};
ghost use Rattle.cascade.specs.Index.{index_rules};
ghost use Rattle.cascade.specs.Winners.{AreSaidRules};
ghost use Rattle.tree_laws.specs.Reached.{IsAtLevel};
ghost use Rattle.box_limits.specs.Limits.{Answers, AreCovered, IsEditedFrom, all_below};
ghost use Rattle.box_limits.specs.Judging as definitions;
ghost use Rattle.box_limits.specs.Judging.{FindsAll, FindsBelow, IsTree};

use crate::above::BODY;
use crate::error::LimitError;
use crate::judging::Judging;
use crate::laws::edits_are_judged_by_their_parts;
use box_gen::Found;
use cascade::RuleIndex;
use dom_store::laws::accepted_edits_keep_roots;
use dom_store::{Document, Edit};
use html_read::ReadNode;
use std::alloc::{AllocError, Global};
use style_tree::Styling;
use tree_laws::laws::{accepted_edits_keep_documents_reached, accepted_edits_keep_documents_whole};

/// Whether the boxes of a document are within the limit after this edit, where they were before it. Looks at the nodes on which
/// those boxes hang that the edit made or changed, at all below these, and at the lines of these nodes up to `html`: after a
/// text was set or a node removed, at none.
pub fn check_edited(
    alloc: Global,
    document: &Document,
    rules: &RuleIndex,
    edit: &Edit,
) -> Result<(), LimitError>
    requires rules { AreSaidRules (index_rules rules.now) }
    requires own { IsSaidState (state_of document.now) }
    requires edited { (state : State) × IsEditedFrom (index_rules rules.now) (edit_of edit.now) (state_of document.now) state }
    ensures { Answers (index_rules rules.now) (state_of document.now) result }
{
    let judging = Judging {
        styling: Styling { document, rules },
    };
    let found = judging.edited(alloc, edit)?;
    found.judged()?;
    Ok(())
}

impl<'a> Judging<'a> {
    // Of all nodes the least that breaks the limit after this edit.
    fn edited(&self, alloc: Global, edit: &Edit) -> Result<Found, AllocError>
        requires edited { (state : State) × IsEditedFrom (index_rules self.now.styling.rules.now) (edit_of edit.now) (state_of self.now.styling.document.now) state }
        ensures { IfOk result (λ found. FindsAll (index_rules self.now.styling.rules.now) (state_of self.now.styling.document.now) found) }
    {
        edits_are_judged_by_their_parts();
        accepted_edits_keep_roots();
        accepted_edits_keep_documents_whole();
        accepted_edits_keep_documents_reached();
        match edit {
            Edit::Text { .. } | Edit::Remove { .. } => Ok(Found::nothing()),
            Edit::Style { node, .. } | Edit::Class { node, .. } | Edit::Move { node, .. } => {
                let found = self.changed(alloc, *node)?;
                Ok(found)
            }
            Edit::Insert {
                parent,
                index,
                nodes,
            } => {
                let count = count_of_tops(&nodes.read);
                let found = self.inserted(alloc, *parent, *index as usize, count)?;
                Ok(found)
            }
        }
    }

    // Of all nodes the least that breaks the limit, after the node of this number was changed, where only it and those below it can.
    fn changed(&self, alloc: Global, number: u32) -> Result<Found, AllocError>
        requires tree { IsTree (state_of self.now.styling.document.now) }
        ensures { IfOk result (λ found. AreCovered (index_rules self.now.styling.rules.now) (state_of self.now.styling.document.now) (all_below (state_of self.now.styling.document.now) (number ∷ []))
            → FindsAll (index_rules self.now.styling.rules.now) (state_of self.now.styling.document.now) found) }
    {
        if number <= BODY {
            let found = self.below_body(alloc)?;
            return Ok(found);
        }
        let Some(parent) = self.parent(number) else {
            return Ok(Found::nothing());
        };
        let found = self.children(alloc, parent, &[number])?;
        Ok(found)
    }

    // Of all nodes the least that breaks the limit.
    fn below_body(&self, alloc: Global) -> Result<Found, AllocError>
        requires tree { IsTree (state_of self.now.styling.document.now) }
        ensures { IfOk result (λ found. FindsAll (index_rules self.now.styling.rules.now) (state_of self.now.styling.document.now) found) }
    {
        let body = self.styling.document.node(BODY).unwrap();
        let found = self.children(alloc, BODY, &body.children)?;
        Ok(found)
    }

    // Of the children of a node from this index on, so many, and of all below them the least that breaks the limit.
    fn inserted(
        &self,
        alloc: Global,
        parent: u32,
        index: usize,
        count: usize,
    ) -> Result<Found, AllocError>
        requires tree { IsTree (state_of self.now.styling.document.now) }
        requires below { (level : ℕ) × IsAtLevel (state_of self.now.styling.document.now) (level + 1) parent }
        requires within { index + count ≤ length (children_at (state_of self.now.styling.document.now) parent) }
        ensures { IfOk result (λ found. FindsBelow (index_rules self.now.styling.rules.now) (state_of self.now.styling.document.now) (take count (drop index (children_at (state_of self.now.styling.document.now) parent))) found) }
    {
        let numbers = self.children_of(parent);
        let found = self.children(alloc, parent, &numbers[index..index + count])?;
        Ok(found)
    }

    // The node's children, none where no such node lives.
    fn children_of(&self, number: u32) -> &[u32]
        ensures { result.now ≡ children_at (state_of self.now.styling.document.now) number }
    {
        match self.styling.document.node(number) {
            Some(node) => &node.children,
            None => &[],
        }
    }

    // The node's parent, where the node lives and has one.
    fn parent(&self, number: u32) -> Option<u32>
        ensures { result ≡ parent_at (state_of self.now.styling.document.now) number }
    {
        self.styling.document.node(number)?.parent
    }
}

// How many of these nodes stand in no other.
fn count_of_tops(nodes: &[ReadNode]) -> usize
    ensures value { result ≡ definitions.count_of_tops (nodes_of nodes.now) }
    ensures most { result ≤ length nodes.now }
{
    let mut count = 0;
    for node in nodes {
        if node.parent.is_none() {
            count += 1;
        }
    }
    count
}
