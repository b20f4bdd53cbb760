//! Edits of the tree: each is refused, or done whole (DOM, 4.2.3, narrowed).

ghost use Rattle.std.specs.Prelude.{◌≡◌, ◌∷◌, [], map, option_to_list, IfOk};
ghost use Rattle.std.specs.String.{string_bytes};
ghost use Rattle.dom_store.specs.Edited.{Applies, IsFitting, edit_of};
ghost use Rattle.dom_store.specs.Edits.{set_class, set_style, set_text};
ghost use Rattle.dom_store.specs.Standing.{parent_at};
ghost use Rattle.dom_store.specs.State.{state_of};
ghost use Rattle.dom_store.specs.Taking.{LeadsBack, before_of, taken_back};

use crate::copies::{copy_of_declarations, copy_of_texts};
use crate::document::Document;
use crate::edit::{Before, Change, Edit};
use crate::error::EditError;
use crate::node::{NodeKind, NodeNumbers};
use css_types::Declaration;
use letters::{Letters, SharedText};
use std::alloc::{AllocError, Global};

impl Document {
    /// Does an edit whole (DOM, 4.2.3, narrowed), or refuses it and changes nothing. Nodes that are inserted are those of
    /// a fragment, each with its own declarations; they draw the next numbers in order. A refused edit draws no number,
    /// nor does one for which memory doesn't suffice. The first of these reasons is answered:
    ///
    /// 1. `NoNode`: a named node doesn't live.
    /// 2. `IsRoot`: `html` (0) or `body` (1) would be removed or moved.
    /// 3. `IsRoot`: a node would be inserted in `html` or moved into it.
    /// 4. `NotText`, `NotElement`: a text is set of an element, declarations or class words of a text, or a text or a
    ///    `br` is named as a parent.
    /// 5. `Inside`: a node would be moved into itself or into a node below it.
    /// 6. `BadIndex`: the index is above the count of the parent's children, at a move without the node itself.
    /// 7. `TooManyNodes`: an insertion would leave more than 65,536 nodes, or draw a number above 4,294,967,294: the first
    ///    number past the limit.
    /// 8. `TooDeep`: a node would stand deeper than 64, where `html` is at 1: the least such number.
    ///
    /// `Memory` may be answered in place of any of them, and of a change. Any edit but a removal can be taken back. The
    /// cost: what is copied out of the edit, the numbers of the children of the parents that change, the nodes below one
    /// that goes or moves, 64 parents at most; each node takes the logarithm of their count.
    pub fn apply(&mut self, alloc: Global, edit: &Edit) -> Result<Change, EditError>
        requires fitting { IsFitting (edit_of edit.now) }
        ensures applies { Applies (state_of self.old) (state_of self.new) (edit_of edit.now) result }
        ensures back { IfOk result (λ change. LeadsBack (edit_of edit.now) (before_of change.before) (state_of self.new) (state_of self.old)) }
    {
        match edit {
            Edit::Text { node, text } => self.set_text(alloc, *node, text),
            Edit::Style { node, declarations } => self.set_style(alloc, *node, declarations),
            Edit::Class { node, words } => self.set_class(alloc, *node, words),
            Edit::Insert {
                parent,
                index,
                nodes,
            } => self.insert(alloc, *parent, *index, nodes),
            Edit::Remove { node } => self.remove(alloc, *node),
            Edit::Move {
                node,
                parent,
                index,
            } => self.move_to(alloc, *node, *parent, *index),
        }
    }

    /// Sets the whole text of a text node.
    pub(crate) fn set_text(
        &mut self,
        alloc: Global,
        n: u32,
        text: &SharedText,
    ) -> Result<Change, EditError>
        ensures applies { Applies (state_of self.old) (state_of self.new) (set_text n (string_bytes text.now)) result }
        ensures back { IfOk result (λ change. taken_back (before_of change.before) (state_of self.new) ≡ state_of self.old) }
    {
        self.check_text(n)?;
        let elements = self.concerned_above(alloc, n)?;
        let text = text.clone()?;
        let kind = self.put_kind(n, NodeKind::Text { text });
        let before = Before::Text { node: n, kind };
        Ok(Change { elements, before })
    }

    /// Sets an element's own declarations.
    pub(crate) fn set_style(
        &mut self,
        alloc: Global,
        n: u32,
        own: &[Declaration],
    ) -> Result<Change, EditError>
        ensures applies { Applies (state_of self.old) (state_of self.new) (set_style n own.now) result }
        ensures back { IfOk result (λ change. taken_back (before_of change.before) (state_of self.new) ≡ state_of self.old) }
    {
        self.check_element(n)?;
        let elements = concerned_alone(alloc, n)?;
        let own = copy_of_declarations(alloc, own)?;
        let declarations = self.put_own(n, own);
        let before = Before::Style {
            node: n,
            declarations,
        };
        Ok(Change { elements, before })
    }

    /// Sets an element's class words.
    pub(crate) fn set_class(
        &mut self,
        alloc: Global,
        n: u32,
        words: &[Letters],
    ) -> Result<Change, EditError>
        ensures applies { Applies (state_of self.old) (state_of self.new) (set_class n (map (λ word. string_bytes word) words.now)) result }
        ensures back { IfOk result (λ change. taken_back (before_of change.before) (state_of self.new) ≡ state_of self.old) }
    {
        self.check_element(n)?;
        let elements = concerned_alone(alloc, n)?;
        let words = copy_of_texts(alloc, words)?;
        let words = self.put_classes(n, words);
        let before = Before::Class { node: n, words };
        Ok(Change { elements, before })
    }

    /// What concerns the node's parent.
    pub(crate) fn concerned_above(&self, alloc: Global, n: u32) -> Result<NodeNumbers, AllocError>
        ensures { IfOk result (λ elements. elements.items ≡ option_to_list (parent_at (state_of self.now) n)) }
    {
        let mut elements = Vec::new(alloc);
        if let Some(parent) = self.parent(n) {
            elements.push(parent)?;
        }
        Ok(elements)
    }
}

/// What concerns this element alone.
pub(crate) fn concerned_alone(alloc: Global, n: u32) -> Result<NodeNumbers, AllocError>
    ensures { IfOk result (λ elements. elements.items ≡ n ∷ []) }
{
    let mut elements = Vec::new(alloc);
    elements.push(n)?;
    Ok(elements)
}
