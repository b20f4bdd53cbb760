//! Edits of a document that is open: each is refused, or done whole (docs/PROFILE/edits.md).

ghost use Rattle.std.specs.Prelude.{◌≡◌, ◌+◌, ◌≤◌, IfSome, IsErrOf, None, OnErr, OnOk};
ghost use Rattle.std.specs.List.{All};
ghost use Rattle.css_types.specs.Rule.{rulings_of};
ghost use Rattle.cascade.specs.Index.{index_rules};
ghost use Rattle.cascade.specs.Winners.{AreSaidRules};
ghost use Rattle.box_limits.specs.Limits.{Answers};
ghost use Rattle.dom_store.specs.Edited as tree;
ghost use Rattle.dom_store.specs.State.{AreSaid, state_of};
ghost use Rattle.edits.specs.Change.{IsFitting, IsSaid, bytes_brought, change_of, metric, of_tree, retire, rule, unrule};
ghost use Rattle.edits.specs.Edited.{after};
ghost use Rattle.face_api.specs.Faces.{faces_of};
ghost use Rattle.tree_laws.specs.Weight.{bytes, total};
ghost use Rattle.session.specs.declared.error.ApplyError.TheVariants.{Memory};
ghost use Rattle.edits.specs.Exact.{step_as};
ghost use Rattle.undo_log.specs.Log.{recorded};
ghost use Rattle.session.specs.Editing.{Applies, CanApply, KeepsHistory, MayWantMemory};
ghost use Rattle.session.specs.Found.{LosesTouched};
ghost use Rattle.session.specs.State.{IsSound, state_in};

use crate::boxes::check_boxes_after;
use crate::error::ApplyError;
use crate::history::step_of_tree;
use crate::keeping::{edited_boxes, sets_alike};
use crate::laws::edits_bring_no_more;
use crate::rules::{
    are_too_many, check_rules, put_behind, rules_behind, rules_without, step_of_rules,
    step_without, turns_none,
};
use crate::session::Session;
use box_gen::laws::names_are_of_places;
use box_limits::laws::rules_that_turn_none;
use box_limits::{LimitError, turn_none};
use cascade::RuleIndex;
use css_types::Rules;
use dom_store::laws::{accepted_edits_keep_roots, accepted_edits_stay_said};
use edit_scope::laws::{
    accepted_edits_keep_texts_leaves, boxes_are_of_elements, boxes_outside_the_scope_were_there,
    pages_are_boxes_of_html, untouched_boxes_were_there,
};
use edits::{Edit, Step, TreeEdit};
use face_api::Face;
use tree_laws::laws::{
    accepted_edits_are_done, accepted_edits_keep_documents_held,
    accepted_edits_keep_documents_reached, accepted_edits_keep_documents_whole,
    accepted_edits_weigh, children_have_parents,
};
use undo_log::laws::{
    documents_stay_where_more_are_drawn, logs_stand_for_states, steps_of_edits_lead_both_ways,
};

impl Session {
    /// Applies an edit. Refused is first what the document refuses (`Document::apply`), what its faces refuse (`Faces::set`,
    /// `Faces::retire`), or what its rules do: more than 4,096 rules of the author or 65,536 declarations in them, or a rule that isn't
    /// there; then a state with more than six boxes on a line of ancestors that are orthogonal to their containing blocks, with the
    /// least number of the node of such a box. A refused edit changes nothing: the state of the document, the rules, the faces and all
    /// that is kept of boxes stay as they were. After an accepted edit of the tree the next page uses what is kept of boxes that stand
    /// as they did; after one of the rules or of a face nothing is kept. A text whose letters are white space alone exactly where its old
    /// ones are is set in the boxes that stand, where one of them alone holds it with other letters, fewer than 64 were set so since the
    /// last page, and memory suffices; the next page makes no boxes then. A face that is retired is dropped at once.
    /// An accepted edit of the tree or of the rules is logged, and can be taken back; one of a face ends the history.
    /// Where the edit can be applied the texts of the next state together hold at most 1,048,576 bytes. An edit of the tree costs what
    /// it costs the document (`Document::apply`), and the styles of the nodes on which the boxes depend that it makes or changes, of all
    /// below these and of those above; one of the rules that names `display` or `writing-mode` costs the styles of all nodes, and any
    /// other one the places of the rules. Where a text may be set in boxes, all of them are gone through for it. Else boxes, and the index of the
    /// rules, are made when they are asked next.
    pub fn apply(&mut self, edit: &Edit) -> Result<(), ApplyError>
        requires sound { IsSound (faces_of ⟦<dyn Face as Face>⟧ self.old.faces) self.old }
        requires fitting { IsFitting (change_of edit.now) }
        requires said { IsSaid (change_of edit.now) }
        requires room { CanApply (state_in (faces_of ⟦<dyn Face as Face>⟧ self.old.faces) self.old) (change_of edit.now)
            → total bytes (after (state_in (faces_of ⟦<dyn Face as Face>⟧ self.old.faces) self.old) (change_of edit.now)).tree ≤ 1048576 }
        ensures applies { Applies (faces_of ⟦<dyn Face as Face>⟧ self.old.faces) (faces_of ⟦<dyn Face as Face>⟧ self.new.faces) self.old self.new (change_of edit.now) result }
        ensures loses { OnOk result (LosesTouched (faces_of ⟦<dyn Face as Face>⟧ self.old.faces) self.old self.new (change_of edit.now)) }
        ensures history { OnOk result (KeepsHistory (faces_of ⟦<dyn Face as Face>⟧ self.old.faces) (faces_of ⟦<dyn Face as Face>⟧ self.new.faces) self.old self.new (change_of edit.now)) }
        ensures memory { IsErrOf result Memory → MayWantMemory (change_of edit.now) }
        ensures view { self.new.view ≡ self.old.view }
        ensures bytes { total bytes (state_of self.new.document) ≤ total bytes (state_of self.old.document) + bytes_brought (change_of edit.now) }
        ensures sound { IsSound (faces_of ⟦<dyn Face as Face>⟧ self.new.faces) self.new }
    {
        edits_bring_no_more();
        documents_stay_where_more_are_drawn();
        logs_stand_for_states();
        steps_of_edits_lead_both_ways();
        match edit {
            Edit::Tree(edit) => self.edit_tree(edit),
            Edit::Metric {
                face,
                c,
                upright,
                value,
            } => self.set_metric(*face, *c, *upright, *value),
            Edit::Retire { face } => self.retire(*face),
            Edit::Rule { rules } => self.put_rules(rules),
            Edit::Unrule { index } => self.drop_rule(*index),
        }
    }

    // An edit of the tree.
    fn edit_tree(&mut self, edit: &TreeEdit) -> Result<(), ApplyError>
        requires sound { IsSound (faces_of ⟦<dyn Face as Face>⟧ self.old.faces) self.old }
        requires fitting { tree.IsFitting (tree.edit_of edit.now) }
        requires said { tree.IsSaidEdit (tree.edit_of edit.now) }
        requires room { CanApply (state_in (faces_of ⟦<dyn Face as Face>⟧ self.old.faces) self.old) (of_tree (tree.edit_of edit.now))
            → total bytes (after (state_in (faces_of ⟦<dyn Face as Face>⟧ self.old.faces) self.old) (of_tree (tree.edit_of edit.now))).tree ≤ 1048576 }
        ensures applies { Applies (faces_of ⟦<dyn Face as Face>⟧ self.old.faces) (faces_of ⟦<dyn Face as Face>⟧ self.new.faces) self.old self.new (of_tree (tree.edit_of edit.now)) result }
        ensures loses { OnOk result (LosesTouched (faces_of ⟦<dyn Face as Face>⟧ self.old.faces) self.old self.new (of_tree (tree.edit_of edit.now))) }
        ensures view { self.new.view ≡ self.old.view }
        ensures bytes { total bytes (state_of self.new.document) ≤ total bytes (state_of self.old.document) + tree.bytes_brought (tree.edit_of edit.now) }
        ensures sound { IsSound (faces_of ⟦<dyn Face as Face>⟧ self.new.faces) self.new }
    {
        accepted_edits_are_done();
        accepted_edits_keep_documents_whole();
        accepted_edits_weigh();
        children_have_parents();
        accepted_edits_keep_roots();
        accepted_edits_stay_said();
        accepted_edits_keep_documents_reached();
        accepted_edits_keep_documents_held();
        accepted_edits_keep_texts_leaves();
        pages_are_boxes_of_html();
        names_are_of_places();
        boxes_outside_the_scope_were_there();
        untouched_boxes_were_there();
        documents_stay_where_more_are_drawn();
        logs_stand_for_states();
        steps_of_edits_lead_both_ways();
        let alike = sets_alike(&self.document, edit);
        let step = self.document.exact(self.alloc, edit)?;
        let change = self.document.apply(self.alloc, edit)?;
        match check_boxes_after(
            self.alloc,
            &self.document,
            &self.rules,
            &mut self.index,
            edit,
        ) {
            Ok(()) => {
                self.boxes = edited_boxes(self.alloc, self.boxes.take(), edit, alike);
                self.log.record(step_of_tree(step));
                Ok(())
            }
            Err(error) => {
                self.document.take_back(change);
                Err(ApplyError::from(error))
            }
        }
    }

    // An advance of a face. No box turns by it.
    fn set_metric(&mut self, face: u8, c: char, upright: bool, value: u32) -> Result<(), ApplyError>
        requires sound { IsSound (faces_of ⟦<dyn Face as Face>⟧ self.old.faces) self.old }
        requires value { value ≤ 10000 }
        ensures applies { Applies (faces_of ⟦<dyn Face as Face>⟧ self.old.faces) (faces_of ⟦<dyn Face as Face>⟧ self.new.faces) self.old self.new (metric face c upright value) result }
        ensures loses { OnOk result (LosesTouched (faces_of ⟦<dyn Face as Face>⟧ self.old.faces) self.old self.new (metric face c upright value)) }
        ensures rest { self.new ≡ record self.old { faces = self.new.faces; boxes = self.new.boxes; log = self.new.log } }
        ensures sound { IsSound (faces_of ⟦<dyn Face as Face>⟧ self.new.faces) self.new }
    {
        names_are_of_places();
        boxes_are_of_elements();
        logs_stand_for_states();
        self.faces.set(face, c, upright, value)?;
        self.boxes = None;
        self.log.clear();
        Ok(())
    }

    // A face is given up. No box turns by it.
    fn retire(&mut self, face: u8) -> Result<(), ApplyError>
        requires sound { IsSound (faces_of ⟦<dyn Face as Face>⟧ self.old.faces) self.old }
        requires face { 1 ≤ face }
        ensures applies { Applies (faces_of ⟦<dyn Face as Face>⟧ self.old.faces) (faces_of ⟦<dyn Face as Face>⟧ self.new.faces) self.old self.new (retire face) result }
        ensures loses { OnOk result (LosesTouched (faces_of ⟦<dyn Face as Face>⟧ self.old.faces) self.old self.new (retire face)) }
        ensures memory { IsErrOf result Memory → ⊥ }
        ensures rest { self.new ≡ record self.old { faces = self.new.faces; boxes = self.new.boxes; log = self.new.log } }
        ensures sound { IsSound (faces_of ⟦<dyn Face as Face>⟧ self.new.faces) self.new }
    {
        names_are_of_places();
        boxes_are_of_elements();
        logs_stand_for_states();
        self.faces.retire(face)?;
        self.boxes = None;
        self.log.clear();
        Ok(())
    }

    // Rules behind the others. Where none of them turns a box, nothing is styled.
    fn put_rules(&mut self, more: &Rules) -> Result<(), ApplyError>
        requires sound { IsSound (faces_of ⟦<dyn Face as Face>⟧ self.old.faces) self.old }
        requires said { All (λ rule. AreSaid rule.declarations) (rulings_of more.now.items) }
        ensures applies { Applies (faces_of ⟦<dyn Face as Face>⟧ self.old.faces) (faces_of ⟦<dyn Face as Face>⟧ self.new.faces) self.old self.new (rule (rulings_of more.now.items)) result }
        ensures loses { OnOk result (LosesTouched (faces_of ⟦<dyn Face as Face>⟧ self.old.faces) self.old self.new (rule (rulings_of more.now.items))) }
        ensures rest { self.new ≡ record self.old { rules = self.new.rules; index = self.new.index; boxes = self.new.boxes; log = self.new.log } }
        ensures sound { IsSound (faces_of ⟦<dyn Face as Face>⟧ self.new.faces) self.new }
    {
        names_are_of_places();
        boxes_are_of_elements();
        rules_that_turn_none();
        documents_stay_where_more_are_drawn();
        logs_stand_for_states();
        steps_of_edits_lead_both_ways();
        if are_too_many(&self.rules, more) {
            return Err(ApplyError::TooManyRules);
        }
        let step = step_of_rules(self.alloc, &self.rules, more)?;
        if turn_none(more) {
            put_behind(self.alloc, &mut self.rules, more)?;
            self.index = None;
            self.boxes = None;
            self.log.record(step);
            Ok(())
        } else {
            let rules = rules_behind(self.alloc, &self.rules, more)?;
            self.change_rules(rules, step)?;
            Ok(())
        }
    }

    // A rule goes. Where it turns no box, nothing is styled.
    fn drop_rule(&mut self, number: u32) -> Result<(), ApplyError>
        requires sound { IsSound (faces_of ⟦<dyn Face as Face>⟧ self.old.faces) self.old }
        ensures applies { Applies (faces_of ⟦<dyn Face as Face>⟧ self.old.faces) (faces_of ⟦<dyn Face as Face>⟧ self.new.faces) self.old self.new (unrule number) result }
        ensures loses { OnOk result (LosesTouched (faces_of ⟦<dyn Face as Face>⟧ self.old.faces) self.old self.new (unrule number)) }
        ensures rest { self.new ≡ record self.old { rules = self.new.rules; index = self.new.index; boxes = self.new.boxes; log = self.new.log } }
        ensures sound { IsSound (faces_of ⟦<dyn Face as Face>⟧ self.new.faces) self.new }
    {
        names_are_of_places();
        boxes_are_of_elements();
        rules_that_turn_none();
        documents_stay_where_more_are_drawn();
        logs_stand_for_states();
        steps_of_edits_lead_both_ways();
        let at = number as usize;
        if at >= self.rules.len() {
            return Err(ApplyError::NoRule);
        }
        let step = step_without(self.alloc, &self.rules, number)?;
        if turns_none(&self.rules, at) {
            self.rules.remove(at);
            self.index = None;
            self.boxes = None;
            self.log.record(step);
            Ok(())
        } else {
            let rules = rules_without(self.alloc, &self.rules, at)?;
            self.change_rules(rules, step)?;
            Ok(())
        }
    }

    // These rules come in the place of the others, and this step is logged, where the boxes can stand under them.
    fn change_rules(&mut self, rules: Rules, step: Step) -> Result<(), LimitError>
        requires sound { IsSound (faces_of ⟦<dyn Face as Face>⟧ self.old.faces) self.old }
        requires said { AreSaidRules (rulings_of rules.items) }
        ensures answers { Answers (rulings_of rules.items) (state_of self.old.document) result }
        ensures done { OnOk result (rulings_of self.new.rules.items ≡ rulings_of rules.items) }
        ensures index { OnOk result (IfSome self.new.index (λ index. index_rules index ≡ rulings_of rules.items)) }
        ensures bare { OnOk result (self.new.boxes ≡ None) }
        ensures logged { OnOk result (self.new.log ≡ recorded (step_as step) self.old.log) }
        ensures same { OnErr result (self.new ≡ self.old) }
        ensures rest { self.new ≡ record self.old { rules = self.new.rules; index = self.new.index; boxes = self.new.boxes; log = self.new.log } }
    {
        let index = RuleIndex::new(self.alloc, &rules)?;
        check_rules(self.alloc, &self.document, &index)?;
        self.rules = rules;
        self.index = Some(index);
        self.boxes = None;
        self.log.record(step);
        Ok(())
    }
}
