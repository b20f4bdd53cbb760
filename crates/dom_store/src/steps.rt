//! The steps of edits: what leads back from the state after one, and what leads there again (DOM, 4.2.3, narrowed).

ghost use Rattle.std.specs.Prelude.{◌≡◌, ◌<◌, ◌≤◌, ◌+◌, ◌^◌, ◌++◌, ◌∷◌, [], filter_map, length, map, IfOk, OnOk};
ghost use Rattle.std.specs.String.{string_bytes};
ghost use Rattle.html_read.specs.Values.{nodes_of};
ghost use Rattle.dom_store.specs.Building.{FollowParents};
ghost use Rattle.dom_store.specs.Edited.{IsFitting, edit_of};
ghost use Rattle.dom_store.specs.Edits.{insert, move_to, remove, set_class, set_style, set_text, under};
ghost use Rattle.dom_store.specs.Exact.{numbered_as};
ghost use Rattle.dom_store.specs.Opening.{greatest_count};
ghost use Rattle.dom_store.specs.Standing.{parent_at};
ghost use Rattle.dom_store.specs.State.{state_of};
ghost use Rattle.dom_store.specs.Steps.{GivesStep, classes_of, holder, letters_of, numbered_below, numbered_from, numbered_of, own_of, place, told_of};

use crate::children::tops_of;
use crate::copies::{copy_of_declarations, copy_of_kind, copy_of_texts, copy_of_what};
use crate::document::Document;
use crate::edit::{Edit, NewNodes};
use crate::error::EditError;
use crate::exact::{ExactEdit, Numbered, NumberedNodes, Step};
use crate::inserting::parent_under;
use crate::node::NodeKind;
use crate::siblings::place_or_end;
use css_types::{Declaration, Declarations};
use html_read::ReadNode;
use letters::{Letters, SharedText};
use std::alloc::{AllocError, Global};

impl Document {
    /// The step of an edit: what leads back from the state after it, but for the next number, and what leads there again.
    /// It refuses as `apply` does, and changes nothing. Nodes that are inserted have the numbers that `apply` is to draw.
    /// The cost: what the edit brings or takes is copied.
    pub fn exact(&self, alloc: Global, edit: &Edit) -> Result<Step, EditError>
        requires fitting { IsFitting (edit_of edit.now) }
        ensures { GivesStep (state_of self.now) (edit_of edit.now) result }
    {
        match edit {
            Edit::Text { node, text } => self.text_step(alloc, *node, text),
            Edit::Style { node, declarations } => self.style_step(alloc, *node, declarations),
            Edit::Class { node, words } => self.class_step(alloc, *node, words),
            Edit::Insert {
                parent,
                index,
                nodes,
            } => self.insert_step(alloc, *parent, *index, nodes),
            Edit::Remove { node } => self.remove_step(alloc, *node),
            Edit::Move {
                node,
                parent,
                index,
            } => self.move_step(alloc, *node, *parent, *index),
        }
    }

    fn text_step(&self, alloc: Global, n: u32, text: &SharedText) -> Result<Step, EditError>
        ensures { GivesStep (state_of self.now) (set_text n (string_bytes text.now)) result }
    {
        self.check_text(n)?;
        let before = self.text(alloc, n)?;
        let text = text.clone()?;
        Ok(Step {
            back: ExactEdit::Text {
                node: n,
                text: before,
            },
            again: ExactEdit::Text { node: n, text },
        })
    }

    fn style_step(&self, alloc: Global, n: u32, own: &[Declaration]) -> Result<Step, EditError>
        ensures { GivesStep (state_of self.now) (set_style n own.now) result }
    {
        self.check_element(n)?;
        let before = copy_of_declarations(alloc, self.declarations(n))?;
        let declarations = copy_of_declarations(alloc, own)?;
        Ok(Step {
            back: ExactEdit::Style {
                node: n,
                declarations: before,
            },
            again: ExactEdit::Style {
                node: n,
                declarations,
            },
        })
    }

    fn class_step(&self, alloc: Global, n: u32, words: &[Letters]) -> Result<Step, EditError>
        ensures { GivesStep (state_of self.now) (set_class n (map (λ word. string_bytes word) words.now)) result }
    {
        self.check_element(n)?;
        let before = copy_of_texts(alloc, self.classes(n))?;
        let words = copy_of_texts(alloc, words)?;
        Ok(Step {
            back: ExactEdit::Class {
                node: n,
                words: before,
            },
            again: ExactEdit::Class { node: n, words },
        })
    }

    fn insert_step(
        &self,
        alloc: Global,
        parent: u32,
        index: u32,
        nodes: &NewNodes,
    ) -> Result<Step, EditError>
        requires fitting { IsFitting (insert parent index (nodes_of nodes.now.read.items) (map (λ own. own.items) nodes.now.styles.items)) }
        ensures { GivesStep (state_of self.now) (insert parent index (nodes_of nodes.now.read.items) (map (λ own. own.items) nodes.now.styles.items)) result }
    {
        self.check_insert(alloc, parent, index, &nodes.read)?;
        let tops = tops_of(alloc, &nodes.read, self.next)?;
        let numbered = self.numbered_new(alloc, parent, &nodes.read, &nodes.styles)?;
        Ok(Step {
            back: ExactEdit::Take {
                parent,
                nodes: tops,
            },
            again: ExactEdit::Restore {
                parent,
                index,
                nodes: numbered,
            },
        })
    }

    fn remove_step(&self, alloc: Global, n: u32) -> Result<Step, EditError>
        ensures { GivesStep (state_of self.now) (remove n) result }
    {
        self.check_removal(n)?;
        let (parent, index) = self.place(n)?;
        let below = self.numbered_below(alloc, n)?;
        let mut nodes = Vec::new(alloc);
        nodes.push(n)?;
        Ok(Step {
            back: ExactEdit::Restore {
                parent,
                index,
                nodes: below,
            },
            again: ExactEdit::Take { parent, nodes },
        })
    }

    fn move_step(&self, alloc: Global, n: u32, parent: u32, index: u32) -> Result<Step, EditError>
        ensures { GivesStep (state_of self.now) (move_to n parent index) result }
    {
        self.check_move(alloc, n, parent, index)?;
        let (from, place) = self.place(n)?;
        Ok(Step {
            back: ExactEdit::Move {
                node: n,
                parent: from,
                index: place,
            },
            again: ExactEdit::Move {
                node: n,
                parent,
                index,
            },
        })
    }

    /// A node's parent and its place among the children there. A place of more than 32 bits is answered as want of memory:
    /// so many children take more than there is.
    fn place(&self, n: u32) -> Result<(u32, u32), AllocError>
        ensures parent { IfOk result (λ found. found.0 ≡ holder (state_of self.now) n) }
        ensures place { IfOk result (λ found. found.1 ≡ place (state_of self.now) n) }
    {
        let parent = self.parent(n).unwrap_or(0);
        let place = place_or_end(self.children(parent), n);
        if place > u32::MAX as usize {
            return Err(AllocError);
        }
        Ok((parent, place as u32))
    }

    /// A node's text, empty where it is none.
    fn text(&self, alloc: Global, n: u32) -> Result<SharedText, AllocError>
        ensures { IfOk result (λ text. string_bytes text ≡ told_of letters_of (state_of self.now) n) }
    {
        if let Some(node) = self.node(n) {
            if let NodeKind::Text { text } = &node.kind {
                return text.clone();
            }
        }
        SharedText::new(alloc, String::new(alloc))
    }

    /// A node's own declarations.
    fn declarations(&self, n: u32) -> &[Declaration]
        ensures { result.now ≡ told_of own_of (state_of self.now) n }
    {
        if let Some(node) = self.node(n) {
            if let NodeKind::Element { declarations, .. } = &node.kind {
                return declarations;
            }
        }
        &[]
    }

    /// A node's class words.
    fn classes(&self, n: u32) -> &[Letters]
        ensures { map (λ word. string_bytes word) result.now ≡ told_of classes_of (state_of self.now) n }
    {
        if let Some(node) = self.node(n) {
            if let NodeKind::Element { classes, .. } = &node.kind {
                return classes;
            }
        }
        &[]
    }

    /// A node and those below it, with their numbers, in document order.
    fn numbered_below(&self, alloc: Global, n: u32) -> Result<NumberedNodes, AllocError>
        ensures { IfOk result (λ nodes. map numbered_as nodes.items ≡ numbered_below (state_of self.now) n) }
    {
        let below = self.descendants(alloc, n)?;
        let mut nodes = Vec::new(alloc);
        for number in &below {
            self.push_numbered(alloc, *number, &mut nodes)?;
        }
        Ok(nodes)
    }

    /// A node, where it lives, comes behind these, with its number.
    fn push_numbered(
        &self,
        alloc: Global,
        n: u32,
        nodes: &mut NumberedNodes,
    ) -> Result<(), AllocError>
        ensures { OnOk result (map numbered_as nodes.new.items ≡ map numbered_as nodes.old.items ++ filter_map (numbered_of (state_of self.now)) (n ∷ [])) }
    {
        if let Some(node) = self.node(n) {
            let kind = copy_of_what(alloc, &node.kind)?;
            let parent = node.parent.unwrap_or(0);
            nodes.push(Numbered {
                number: n,
                parent,
                kind,
            })?;
        }
        Ok(())
    }

    /// Nodes that are inserted in this parent, with the numbers that they are to draw.
    fn numbered_new(
        &self,
        alloc: Global,
        parent: u32,
        nodes: &[ReadNode],
        styles: &[Declarations],
    ) -> Result<NumberedNodes, AllocError>
        requires few { length nodes.now ≤ greatest_count }
        requires room { self.now.next + length nodes.now < 2 ^ 32 }
        requires follow { FollowParents (nodes_of nodes.now) }
        requires styles { length styles.now ≡ length nodes.now }
        ensures { IfOk result (λ numbered. map numbered_as numbered.items ≡ numbered_from self.now.next (under parent self.now.next (nodes_of nodes.now)) (map (λ own. own.items) styles.now)) }
    {
        let first = self.next;
        let mut numbered = Vec::new(alloc);
        for place in 0..nodes.len() {
            let read = &nodes[place];
            let kind = copy_of_kind(alloc, &read.kind, &styles[place])?;
            numbered.push(Numbered {
                number: first + place as u32,
                parent: parent_under(parent, first, read.parent),
                kind,
            })?;
        }
        Ok(numbered)
    }
}
