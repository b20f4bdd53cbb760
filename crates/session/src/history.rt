//! Edits are taken back, and done again (docs/PROFILE/edits.md).

ghost use Rattle.std.specs.Prelude.{◌≡◌, IfErr, IfSome, IsErrOf, None, OnErr, OnOk};
ghost use Rattle.css_types.specs.Rule.{rulings_of};
ghost use Rattle.dom_store.specs.State.{state_of};
ghost use Rattle.dom_store.specs.Steps as tree;
ghost use Rattle.edits.specs.Exact.{CanBeDone, exact_of, exactly, of_tree_step, step_as};
ghost use Rattle.face_api.specs.Faces.{faces_of};
ghost use Rattle.undo_log.specs.Log.{next_ahead, next_back};
ghost use Rattle.session.specs.declared.error.UndoError.TheVariants.{Memory, NoRedo, NoUndo};
ghost use Rattle.session.specs.Found.{LosesDown, LosesUp};
ghost use Rattle.session.specs.State.{AreRooted, IsSound};
ghost use Rattle.session.specs.Undoing.{BoxesGoOn, DoesAgain, IndexStays, IsStepDown, IsStepUp, TakesBack, bare};

use crate::error::UndoError;
use crate::keeping::{KeptBoxes, exactly_edited_boxes, sets_exactly_alike};
use crate::rules::{put_among, take_among};
use crate::session::Session;
use box_gen::laws::names_are_of_places;
use cascade::RuleIndex;
use css_types::Rules;
use dom_store::{Document, Step as TreeStep};
use edit_scope::laws::{
    boxes_are_of_elements, boxes_outside_the_scope_of_an_exact_edit_were_there,
    boxes_untouched_by_an_exact_edit_were_there, pages_are_boxes_of_html,
};
use edits::{ExactEdit, Step};
use face_api::Face;
use std::alloc::{AllocError, Global};
use undo_log::laws::logs_stand_for_states;

impl Session {
    /// Takes the last edit back that was accepted, of the tree or of the rules, and wasn't taken back: its document is what it was before
    /// that edit, but for the number that is given next. `NoUndo` comes exactly where there is none: the last 64 such edits can be taken
    /// back, and none from before an edit of a face. `Memory` comes only where there is one. Refused, nothing changes. The cost: that of the
    /// exact edit (`Document::apply_exact`); nothing is judged, since what stood once was within the limits. The next page uses what is
    /// kept of boxes as after an edit (`Session::apply`).
    pub fn undo(&mut self) -> Result<(), UndoError>
        requires sound { IsSound (faces_of ⟦<dyn Face as Face>⟧ self.old.faces) self.old }
        ensures undoes { TakesBack (faces_of ⟦<dyn Face as Face>⟧ self.old.faces) (faces_of ⟦<dyn Face as Face>⟧ self.new.faces) self.old self.new result }
        ensures step { OnOk result (IsStepDown (faces_of ⟦<dyn Face as Face>⟧ self.old.faces) (faces_of ⟦<dyn Face as Face>⟧ self.new.faces) self.old self.new) }
        ensures nothing { IfErr result (λ error. error ≡ NoUndo → next_back self.old.log ≡ None) }
        ensures memory { IsErrOf result Memory → next_back self.old.log ≡ None → ⊥ }
        ensures loses { OnOk result (LosesDown (faces_of ⟦<dyn Face as Face>⟧ self.old.faces) self.old self.new) }
        ensures view { self.new.view ≡ self.old.view }
        ensures sound { IsSound (faces_of ⟦<dyn Face as Face>⟧ self.new.faces) self.new }
    {
        logs_stand_for_states();
        names_are_of_places();
        boxes_are_of_elements();
        pages_are_boxes_of_html();
        boxes_outside_the_scope_of_an_exact_edit_were_there();
        boxes_untouched_by_an_exact_edit_were_there();
        match self.log.past() {
            None => Err(UndoError::NoUndo),
            Some(step) => {
                let alike = sets_exactly_alike(&self.document, &step.back);
                do_exactly(self.alloc, &mut self.document, &mut self.rules, &step.back)?;
                self.index = index_after(self.index.take(), &step.back);
                self.boxes = boxes_after(self.alloc, self.boxes.take(), &step.back, alike);
                self.log.down();
                Ok(())
            }
        }
    }

    /// Does the edit again that was taken back last, where none was accepted since: its document is what it was after that edit, but for
    /// the number that is given next. `NoRedo` comes exactly where there is none. The rest as for `undo`.
    pub fn redo(&mut self) -> Result<(), UndoError>
        requires sound { IsSound (faces_of ⟦<dyn Face as Face>⟧ self.old.faces) self.old }
        ensures redoes { DoesAgain (faces_of ⟦<dyn Face as Face>⟧ self.old.faces) (faces_of ⟦<dyn Face as Face>⟧ self.new.faces) self.old self.new result }
        ensures step { OnOk result (IsStepUp (faces_of ⟦<dyn Face as Face>⟧ self.old.faces) (faces_of ⟦<dyn Face as Face>⟧ self.new.faces) self.old self.new) }
        ensures nothing { IfErr result (λ error. error ≡ NoRedo → next_ahead self.old.log ≡ None) }
        ensures memory { IsErrOf result Memory → next_ahead self.old.log ≡ None → ⊥ }
        ensures loses { OnOk result (LosesUp (faces_of ⟦<dyn Face as Face>⟧ self.old.faces) self.old self.new) }
        ensures view { self.new.view ≡ self.old.view }
        ensures sound { IsSound (faces_of ⟦<dyn Face as Face>⟧ self.new.faces) self.new }
    {
        logs_stand_for_states();
        names_are_of_places();
        boxes_are_of_elements();
        pages_are_boxes_of_html();
        boxes_outside_the_scope_of_an_exact_edit_were_there();
        boxes_untouched_by_an_exact_edit_were_there();
        match self.log.future() {
            None => Err(UndoError::NoRedo),
            Some(step) => {
                let alike = sets_exactly_alike(&self.document, &step.again);
                do_exactly(self.alloc, &mut self.document, &mut self.rules, &step.again)?;
                self.index = index_after(self.index.take(), &step.again);
                self.boxes = boxes_after(self.alloc, self.boxes.take(), &step.again, alike);
                self.log.up();
                Ok(())
            }
        }
    }
}

/// The step of an edit of the tree, as one of the document.
pub(crate) fn step_of_tree(step: TreeStep) -> Step
    ensures { step_as result ≡ of_tree_step (tree.step_as step) }
{
    Step {
        back: ExactEdit::Tree(step.back),
        again: ExactEdit::Tree(step.again),
    }
}

// Does an exact edit of a document and its rules. Where memory runs out nothing changes.
fn do_exactly(
    alloc: Global,
    document: &mut Document,
    rules: &mut Rules,
    edit: &ExactEdit,
) -> Result<(), AllocError>
    requires { CanBeDone (bare (state_of document.old) (rulings_of rules.old.items)) (exact_of edit.now) }
    ensures done { OnOk result (bare (state_of document.new) (rulings_of rules.new.items) ≡ exactly (bare (state_of document.old) (rulings_of rules.old.items)) (exact_of edit.now)) }
    ensures document { OnErr result (state_of document.new ≡ state_of document.old) }
    ensures rules { OnErr result (rules.new.items ≡ rules.old.items) }
{
    match edit {
        ExactEdit::Tree(edit) => {
            document.apply_exact(alloc, edit)?;
            Ok(())
        }
        ExactEdit::PutRules { index, rules: more } => {
            put_among(alloc, rules, *index as usize, more)
        }
        ExactEdit::TakeRules { index, count } => {
            take_among(rules, *index as usize, *count as usize);
            Ok(())
        }
    }
}

// What is kept of the index of the rules after an exact edit.
fn index_after(index: Option<RuleIndex>, edit: &ExactEdit) -> Option<RuleIndex>
    ensures { IndexStays index (exact_of edit.now) result }
{
    match edit {
        ExactEdit::Tree(_) => index,
        ExactEdit::PutRules { .. } | ExactEdit::TakeRules { .. } => None,
    }
}

// What is kept of boxes after an exact edit, which gives a text letters that are white space alone exactly where its old ones are where
// `alike`.
fn boxes_after(
    alloc: Global,
    boxes: Option<KeptBoxes>,
    edit: &ExactEdit,
    alike: bool,
) -> Option<KeptBoxes>
    requires rooted { IfSome boxes AreRooted }
    ensures { BoxesGoOn alike boxes (exact_of edit.now) result }
{
    match edit {
        ExactEdit::Tree(edit) => exactly_edited_boxes(alloc, boxes, edit, alike),
        ExactEdit::PutRules { .. } | ExactEdit::TakeRules { .. } => None,
    }
}
