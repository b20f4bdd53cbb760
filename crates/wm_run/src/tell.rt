//! What is due, written to a sink. Nothing else in this crate writes.

ghost use Rattle.std.specs.Prelude.{◌≡◌, ◌⊎◌, OnOk, IsErrOf};
ghost use Rattle.std.specs.Io.KnownBytes.{Appends};
ghost use Rattle.face_api.specs.Faces.{faces_of};
ghost use Rattle.dom_store.specs.State.{state_of};
ghost use Rattle.io_edge.specs.Edge.{AppendsFront, Rose};
ghost use Rattle.modes_job.specs.Telling.{modes_of};
ghost use Rattle.probe_job.specs.Answers.{answers};
ghost use Rattle.session.specs.State.{IsSound, page_in, rules_in, state_in};
ghost use Rattle.style_modes.specs.Turnable.{IsTurnable};
ghost use Rattle.edit_job.specs.Owed.{Owed, RiseBy, after_page_in, at_first};
ghost use Rattle.input_due.specs.Due.{IsOf, IsOpen, IsReady};
ghost use Rattle.input_due.specs.Owed.{IsOwedFor, owed_so_far};
ghost use Rattle.wm_run.specs.Job.{usage_line, with_status};
ghost use Rattle.wm_run.specs.Standing.{Gives, IsBroken, IsSettled, Stands, ended};

use crate::status::Status;
use edit_job::laws::all_are_owed_at_first;
use edit_job::{refusal_line, tell_steps};
use face_api::Face;
use hit_caret::Probe;
use input_due::Due;
use io_edge::{Sink, WriteError, write_all_of};
use modes_job::laws::modes_are_turns;
use modes_job::tell_modes;
use probe_job::tell_answers;
use session::Session;
use std::alloc::Global;
use std::sync::ledger::Ledger;
use wm_units::Steps;

const USAGE: &[u8] =
    b"usage: wm_layout layout|edit|modes|gen|probe [--view-inline N] [--view-block N] [--count N]\n";

/// Writes what is due, and answers how the run ends.
pub(crate) fn tell<K: Sink, L: Ledger, M: Ledger>(
    alloc: Global,
    due: Due,
    sink: &mut K,
    prepared: &mut Steps<L>,
    arranged: &mut Steps<M>,
) -> Status
    requires ready { IsReady ⟦<dyn Face as Face>⟧ due }
    ensures stands { Stands (with_status (IsOf ⟦<dyn Face as Face>⟧ due)) (K.held sink.old) (K.held sink.new) result }
    ensures no_usage { result ≡ Status.Usage → ⊥ }
    ensures no_read_fault { result ≡ Status.ReadFault → ⊥ }
    ensures done { result ≡ Status.Done → IsOpen due }
    ensures counts { (owed : Owed) → IsOwedFor ⟦<dyn Face as Face>⟧ due owed → RiseBy owed prepared.old prepared.new arranged.old arranged.new }
    ensures write_fault { result ≡ Status.WriteFault → Rose (K.faults sink.old) (K.faults sink.new) }
{
    all_are_owed_at_first();
    match due {
        Due::Steps {
            mut session,
            script,
        } => {
            let written = tell_steps(&mut session, &script, sink, prepared, arranged);
            ended(written, Status::Done)
        }
        Due::Answers {
            mut session,
            probes,
        } => {
            let written = tell_probes(&mut session, &probes, sink, prepared, arranged);
            ended(written, Status::Done)
        }
        Due::Pages { mut session } => {
            let written = tell_pages(alloc, &mut session, sink, prepared, arranged);
            ended(written, Status::Done)
        }
        Due::Refused { cause, place } => tell_line(
            refusal_line(cause.word(), place).as_bytes(),
            sink,
            Status::Refused,
        ),
    }
}

// Answers the lines of a probe over the page of a session.
fn tell_probes<K: Sink, L: Ledger, M: Ledger>(
    session: &mut Session,
    probes: &[Probe],
    sink: &mut K,
    prepared: &mut Steps<L>,
    arranged: &mut Steps<M>,
) -> Result<(), WriteError>
    requires sound { IsSound (faces_of ⟦<dyn Face as Face>⟧ session.old.faces) session.old }
    ensures whole { OnOk result (Appends (K.held sink.old) (K.held sink.new) (answers (page_in (faces_of ⟦<dyn Face as Face>⟧ session.old.faces) session.old) probes.now)) }
    ensures front { AppendsFront (K.held sink.old) (K.held sink.new) (answers (page_in (faces_of ⟦<dyn Face as Face>⟧ session.old.faces) session.old) probes.now) }
    ensures counts { RiseBy (owed_so_far (after_page_in (faces_of ⟦<dyn Face as Face>⟧ session.old.faces) session.old (at_first (state_in (faces_of ⟦<dyn Face as Face>⟧ session.old.faces) session.old))))
        prepared.old prepared.new arranged.old arranged.new }
    ensures fault { IsErrOf result WriteError.WriteFault → Rose (K.faults sink.old) (K.faults sink.new) }
{
    all_are_owed_at_first();
    let placed = session.page(prepared, arranged)?;
    tell_answers(&placed, probes, sink)
}

// Lists the flow of a session, and its page in each mode.
fn tell_pages<K: Sink, L: Ledger, M: Ledger>(
    alloc: Global,
    session: &mut Session,
    sink: &mut K,
    prepared: &mut Steps<L>,
    arranged: &mut Steps<M>,
) -> Result<(), WriteError>
    requires sound { IsSound (faces_of ⟦<dyn Face as Face>⟧ session.old.faces) session.old }
    requires turnable { IsTurnable (rules_in session.old) (state_of session.old.document) }
    ensures whole { OnOk result (Appends (K.held sink.old) (K.held sink.new) (modes_of (faces_of ⟦<dyn Face as Face>⟧ session.old.faces) session.old.view (rules_in session.old) (state_of session.old.document))) }
    ensures front { AppendsFront (K.held sink.old) (K.held sink.new) (modes_of (faces_of ⟦<dyn Face as Face>⟧ session.old.faces) session.old.view (rules_in session.old) (state_of session.old.document)) }
    ensures counts { RiseBy (owed_so_far (after_page_in (faces_of ⟦<dyn Face as Face>⟧ session.old.faces) session.old (at_first (state_in (faces_of ⟦<dyn Face as Face>⟧ session.old.faces) session.old))))
        prepared.old prepared.new arranged.old arranged.new }
    ensures fault { IsErrOf result WriteError.WriteFault → Rose (K.faults sink.old) (K.faults sink.new) }
{
    all_are_owed_at_first();
    modes_are_turns();
    let flow = session.page(prepared, arranged)?;
    tell_modes(alloc, &flow, sink)
}

/// Writes the line that tells of the commands.
#[tactic(auto, unfolding(crate::specs::Job::usage_line))]
pub(crate) fn tell_usage<K: Sink>(sink: &mut K) -> Status
    ensures gives { Gives Status.Usage usage_line (K.held sink.old) (K.held sink.new) result }
    ensures write_fault { result ≡ Status.WriteFault → Rose (K.faults sink.old) (K.faults sink.new) }
{
    tell_line(USAGE, sink, Status::Usage)
}

/// Writes a line with which a run ends so.
pub(crate) fn tell_line<K: Sink>(line: &[u8], sink: &mut K, status: Status) -> Status
    requires settled { IsSettled status }
    ensures gives { Gives status line.now (K.held sink.old) (K.held sink.new) result }
    ensures ends { (result ≡ status) ⊎ IsBroken result }
    ensures write_fault { result ≡ Status.WriteFault → Rose (K.faults sink.old) (K.faults sink.new) }
{
    ended(write_all_of(sink, line), status)
}

// How a run ends once its bytes are written.
fn ended(written: Result<(), WriteError>, status: Status) -> Status
    ensures { result ≡ ended written status }
{
    match written {
        Ok(()) => status,
        Err(WriteError::WriteFault) => Status::WriteFault,
        Err(WriteError::Memory) => Status::Memory,
    }
}
