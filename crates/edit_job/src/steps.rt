//! The steps of a script over a document that is open.

ghost use Rattle.std.specs.Prelude.{◌≡◌, ◌+◌, ◌≤◌, List, ℕ, OnOk, IsErrOf, length};
ghost use Rattle.std.specs.Io.KnownBytes.{Appends};
ghost use Rattle.face_api.specs.Faces.{faces_of};
ghost use Rattle.io_edge.specs.Edge.{AppendsFront, Rose};
ghost use Rattle.dom_store.specs.State.{state_of};
ghost use Rattle.edits.specs.Change.{IsFitting, IsSaid, bytes_brought, change_of};
ghost use Rattle.tree_laws.specs.Weight.{bytes, total};
ghost use Rattle.edit_script.specs.Fitting.{AllFit, Fits, bytes_in};
ghost use Rattle.edit_script.specs.Meaning as steps;
ghost use Rattle.edit_script.specs.Views.{step_of, steps_of};
ghost use Rattle.listing.specs.Listing.{listing};
ghost use Rattle.session.specs.Error.{apply_word, undo_word};
ghost use Rattle.session.specs.History.{Opened};
ghost use Rattle.session.specs.State.{Holds, IsSound, page_in};
ghost use Rattle.session.specs.declared.error.ApplyError.TheVariants as applying;
ghost use Rattle.session.specs.declared.error.UndoError.TheVariants as undoing;
ghost use Rattle.edit_job.specs.Owed.{IsPaid, Logged, OweStepsFrom, OwesStepIn, Owing, RiseTo, after_page_in, logged_in};
ghost use Rattle.edit_job.specs.Refusal.{IsRefusal, refusal};
ghost use Rattle.edit_job.specs.Steps.{AreStepsFrom};
ghost use Rattle.edit_job.specs.Told.{Begins, GoThrough, Goes, HasRoom, Pays};

use crate::laws::steps_have_one_end;
use crate::refusal::refusal_line;
use edit_script::{ScriptLine, ScriptStep};
use edits::Edit;
use face_api::Face;
use io_edge::{Sink, WriteError, write_all_of};
use listing::write_listing;
use session::laws::{edits_bring_no_more, one_outcome};
use session::{ApplyError, Session, UndoError};
use std::sync::ledger::Ledger;
use wm_units::Steps;

/// Goes through the steps of a script: writes the listing of each page that is shown, and the line of each refusal. Whole at Ok, else
/// a front of what is due is written. `WriteFault` comes only where the sink's count of faults rose in this call. The texts of the
/// document, and of each one of its history, hold with those of the script at most 1,048,576 bytes. Whatever is written, no more texts are
/// prepared and no more contents arranged than the steps owe to their pages.
pub fn tell_steps<K: Sink, L: Ledger, M: Ledger>(
    session: &mut Session,
    script: &[ScriptLine],
    sink: &mut K,
    prepared: &mut Steps<L>,
    arranged: &mut Steps<M>,
) -> Result<(), WriteError>
    requires sound { IsSound (faces_of ⟦<dyn Face as Face>⟧ session.old.faces) session.old }
    requires fit { AllFit (steps_of script.now) }
    requires room { HasRoom (faces_of ⟦<dyn Face as Face>⟧ session.old.faces) session.old (steps_of script.now) }
    ensures whole { OnOk result ((most : ℕ) (opened : Opened) → Holds (faces_of ⟦<dyn Face as Face>⟧ session.old.faces) most session.old opened
        → GoThrough (faces_of ⟦<dyn Face as Face>⟧ session.new.faces) session.old session.new (steps_of script.now) (K.held sink.old) (K.held sink.new) opened) }
    ensures front { (most : ℕ) (opened last : Opened) (due : List ℕ) → Holds (faces_of ⟦<dyn Face as Face>⟧ session.old.faces) most session.old opened
        → AreStepsFrom session.old.view opened (steps_of script.now) last due
        → AppendsFront (K.held sink.old) (K.held sink.new) due }
    ensures costs { (owing last : Owing) → IsPaid session.old owing
        → OweStepsFrom session.old.view (logged_in (faces_of ⟦<dyn Face as Face>⟧ session.old.faces) session.old) owing (steps_of script.now) last
        → RiseTo owing last prepared.old prepared.new arranged.old arranged.new }
    ensures view { session.new.view ≡ session.old.view }
    ensures sound { OnOk result (IsSound (faces_of ⟦<dyn Face as Face>⟧ session.new.faces) session.new) }
    ensures later { K.faults sink.old ≤ K.faults sink.new }
    ensures fault { IsErrOf result WriteError.WriteFault → Rose (K.faults sink.old) (K.faults sink.new) }
{
    one_outcome();
    steps_have_one_end();
    for line in script {
        tell_step(session, line, sink, prepared, arranged)?;
    }
    Ok(())
}

// One step.
fn tell_step<K: Sink, L: Ledger, M: Ledger>(
    session: &mut Session,
    line: &ScriptLine,
    sink: &mut K,
    prepared: &mut Steps<L>,
    arranged: &mut Steps<M>,
) -> Result<(), WriteError>
    requires sound { IsSound (faces_of ⟦<dyn Face as Face>⟧ session.old.faces) session.old }
    requires fits { Fits (step_of line.now.what) }
    requires room { total bytes (state_of session.old.document) + bytes_in (step_of line.now.what) ≤ 1048576 }
    ensures whole { OnOk result (Goes (faces_of ⟦<dyn Face as Face>⟧ session.old.faces) (faces_of ⟦<dyn Face as Face>⟧ session.new.faces) session.old session.new (step_of line.now.what) line.now.line (K.held sink.old) (K.held sink.new)) }
    ensures front { Begins (faces_of ⟦<dyn Face as Face>⟧ session.old.faces) session.old (step_of line.now.what) line.now.line (K.held sink.old) (K.held sink.new) }
    ensures costs { (owing more : Owing) (next : Logged) → IsPaid session.old owing
        → OwesStepIn (faces_of ⟦<dyn Face as Face>⟧ session.old.faces) session.old owing (step_of line.now.what) next more
        → RiseTo owing more prepared.old prepared.new arranged.old arranged.new }
    ensures paid { OnOk result (Pays (faces_of ⟦<dyn Face as Face>⟧ session.old.faces) (faces_of ⟦<dyn Face as Face>⟧ session.new.faces) session.old session.new (step_of line.now.what)) }
    ensures view { session.new.view ≡ session.old.view }
    ensures sound { IsSound (faces_of ⟦<dyn Face as Face>⟧ session.new.faces) session.new }
    ensures later { K.faults sink.old ≤ K.faults sink.new }
    ensures fault { IsErrOf result WriteError.WriteFault → Rose (K.faults sink.old) (K.faults sink.new) }
{
    match &line.what {
        ScriptStep::Show => tell_page(session, sink, prepared, arranged),
        ScriptStep::Edit(edit) => tell_edit(session, edit, line.line, sink),
        ScriptStep::Undo => tell_undo(session, line.line, sink),
        ScriptStep::Redo => tell_redo(session, line.line, sink),
    }
}

// The page as it is now.
fn tell_page<K: Sink, L: Ledger, M: Ledger>(
    session: &mut Session,
    sink: &mut K,
    prepared: &mut Steps<L>,
    arranged: &mut Steps<M>,
) -> Result<(), WriteError>
    requires sound { IsSound (faces_of ⟦<dyn Face as Face>⟧ session.old.faces) session.old }
    ensures whole { OnOk result (Appends (K.held sink.old) (K.held sink.new) (listing (page_in (faces_of ⟦<dyn Face as Face>⟧ session.old.faces) session.old))) }
    ensures front { AppendsFront (K.held sink.old) (K.held sink.new) (listing (page_in (faces_of ⟦<dyn Face as Face>⟧ session.old.faces) session.old)) }
    ensures costs { (owing : Owing) → IsPaid session.old owing
        → RiseTo owing (after_page_in (faces_of ⟦<dyn Face as Face>⟧ session.old.faces) session.old owing) prepared.old prepared.new arranged.old arranged.new }
    ensures paid { OnOk result ((owing : Owing) → IsPaid session.new (after_page_in (faces_of ⟦<dyn Face as Face>⟧ session.old.faces) session.old owing)) }
    ensures rest { session.new ≡ record session.old { index = session.new.index; boxes = session.new.boxes } }
    ensures sound { IsSound (faces_of ⟦<dyn Face as Face>⟧ session.new.faces) session.new }
    ensures later { K.faults sink.old ≤ K.faults sink.new }
    ensures fault { IsErrOf result WriteError.WriteFault → Rose (K.faults sink.old) (K.faults sink.new) }
{
    let placed = session.page(prepared, arranged)?;
    write_listing(&placed, sink)
}

// An edit, or its refusal with the number of its line.
fn tell_edit<K: Sink>(
    session: &mut Session,
    edit: &Edit,
    line: usize,
    sink: &mut K,
) -> Result<(), WriteError>
    requires sound { IsSound (faces_of ⟦<dyn Face as Face>⟧ session.old.faces) session.old }
    requires fitting { IsFitting (change_of edit.now) }
    requires said { IsSaid (change_of edit.now) }
    requires room { total bytes (state_of session.old.document) + bytes_brought (change_of edit.now) ≤ 1048576 }
    ensures whole { OnOk result (Goes (faces_of ⟦<dyn Face as Face>⟧ session.old.faces) (faces_of ⟦<dyn Face as Face>⟧ session.new.faces) session.old session.new (steps.edit (change_of edit.now)) line (K.held sink.old) (K.held sink.new)) }
    ensures front { Begins (faces_of ⟦<dyn Face as Face>⟧ session.old.faces) session.old (steps.edit (change_of edit.now)) line (K.held sink.old) (K.held sink.new) }
    ensures paid { OnOk result (Pays (faces_of ⟦<dyn Face as Face>⟧ session.old.faces) (faces_of ⟦<dyn Face as Face>⟧ session.new.faces) session.old session.new (steps.edit (change_of edit.now))) }
    ensures view { session.new.view ≡ session.old.view }
    ensures sound { IsSound (faces_of ⟦<dyn Face as Face>⟧ session.new.faces) session.new }
    ensures later { K.faults sink.old ≤ K.faults sink.new }
    ensures fault { IsErrOf result WriteError.WriteFault → Rose (K.faults sink.old) (K.faults sink.new) }
{
    one_outcome();
    edits_bring_no_more();
    match session.apply(edit) {
        Ok(()) => Ok(()),
        Err(error) => tell_refusal(error, line, sink),
    }
}

// The last edit is taken back, or it is told that there is none.
fn tell_undo<K: Sink>(session: &mut Session, line: usize, sink: &mut K) -> Result<(), WriteError>
    requires sound { IsSound (faces_of ⟦<dyn Face as Face>⟧ session.old.faces) session.old }
    ensures whole { OnOk result (Goes (faces_of ⟦<dyn Face as Face>⟧ session.old.faces) (faces_of ⟦<dyn Face as Face>⟧ session.new.faces) session.old session.new steps.undo line (K.held sink.old) (K.held sink.new)) }
    ensures front { Begins (faces_of ⟦<dyn Face as Face>⟧ session.old.faces) session.old steps.undo line (K.held sink.old) (K.held sink.new) }
    ensures paid { OnOk result (Pays (faces_of ⟦<dyn Face as Face>⟧ session.old.faces) (faces_of ⟦<dyn Face as Face>⟧ session.new.faces) session.old session.new steps.undo) }
    ensures view { session.new.view ≡ session.old.view }
    ensures sound { IsSound (faces_of ⟦<dyn Face as Face>⟧ session.new.faces) session.new }
    ensures later { K.faults sink.old ≤ K.faults sink.new }
    ensures fault { IsErrOf result WriteError.WriteFault → Rose (K.faults sink.old) (K.faults sink.new) }
{
    match session.undo() {
        Ok(()) => Ok(()),
        Err(error) => tell_none(error, line, sink),
    }
}

// The edit that was taken back last is done again, or it is told that there is none.
fn tell_redo<K: Sink>(session: &mut Session, line: usize, sink: &mut K) -> Result<(), WriteError>
    requires sound { IsSound (faces_of ⟦<dyn Face as Face>⟧ session.old.faces) session.old }
    ensures whole { OnOk result (Goes (faces_of ⟦<dyn Face as Face>⟧ session.old.faces) (faces_of ⟦<dyn Face as Face>⟧ session.new.faces) session.old session.new steps.redo line (K.held sink.old) (K.held sink.new)) }
    ensures front { Begins (faces_of ⟦<dyn Face as Face>⟧ session.old.faces) session.old steps.redo line (K.held sink.old) (K.held sink.new) }
    ensures paid { OnOk result (Pays (faces_of ⟦<dyn Face as Face>⟧ session.old.faces) (faces_of ⟦<dyn Face as Face>⟧ session.new.faces) session.old session.new steps.redo) }
    ensures view { session.new.view ≡ session.old.view }
    ensures sound { IsSound (faces_of ⟦<dyn Face as Face>⟧ session.new.faces) session.new }
    ensures later { K.faults sink.old ≤ K.faults sink.new }
    ensures fault { IsErrOf result WriteError.WriteFault → Rose (K.faults sink.old) (K.faults sink.new) }
{
    match session.redo() {
        Ok(()) => Ok(()),
        Err(error) => tell_none(error, line, sink),
    }
}

// That no edit is taken back, or done again, with the number of the line. Want of memory is no refusal.
fn tell_none<K: Sink>(error: UndoError, line: usize, sink: &mut K) -> Result<(), WriteError>
    ensures whole { OnOk result ((error ≡ undoing.Memory → ⊥) × Appends (K.held sink.old) (K.held sink.new) (refusal (undo_word error) line)) }
    ensures front { AppendsFront (K.held sink.old) (K.held sink.new) (refusal (undo_word error) line) }
    ensures none { error ≡ undoing.Memory → K.held sink.new ≡ K.held sink.old }
    ensures later { K.faults sink.old ≤ K.faults sink.new }
    ensures fault { IsErrOf result WriteError.WriteFault → Rose (K.faults sink.old) (K.faults sink.new) }
{
    match error {
        UndoError::NoUndo | UndoError::NoRedo => {
            let told = refusal_line(error.word(), line);
            write_all_of(sink, told.as_bytes())
        }
        UndoError::Memory => Err(WriteError::Memory),
    }
}

// The refusal of an edit, with the number of its line. Want of memory is none.
fn tell_refusal<K: Sink>(error: ApplyError, line: usize, sink: &mut K) -> Result<(), WriteError>
    ensures whole { OnOk result (IsRefusal error × Appends (K.held sink.old) (K.held sink.new) (refusal (apply_word error) line)) }
    ensures front { AppendsFront (K.held sink.old) (K.held sink.new) (refusal (apply_word error) line) }
    ensures none { error ≡ applying.Memory → K.held sink.new ≡ K.held sink.old }
    ensures later { K.faults sink.old ≤ K.faults sink.new }
    ensures fault { IsErrOf result WriteError.WriteFault → Rose (K.faults sink.old) (K.faults sink.new) }
{
    match error {
        ApplyError::Document(_)
        | ApplyError::NoFace
        | ApplyError::Fixed
        | ApplyError::Full
        | ApplyError::TooManyRules
        | ApplyError::NoRule
        | ApplyError::Limit(_) => {
            write_all_of(sink, refusal_line(error.word(), line).as_bytes())
        }
        ApplyError::Memory => Err(WriteError::Memory),
    }
}
