//! The generated input: what is due for it is counted.

ghost use Rattle.std.specs.Prelude.{◌≡◌, ◌≤◌, ◌==◌, List, ℕ, count_by, true, IfOk};
ghost use Rattle.face_api.specs.Faces.{faces_of};
ghost use Rattle.wm_units.specs.View.{IsView};
ghost use Rattle.io_edge.specs.Edge.{Rose};
ghost use Rattle.generator.specs.Generator.{gen_input};
ghost use Rattle.edit_job.specs.Owed.{Owed, RiseBy};
ghost use Rattle.input_due.specs.Due.{End};
ghost use Rattle.input_due.specs.Input.{IsDueOfDocument};
ghost use Rattle.wm_run.specs.Job.{IsDueOfGenerated, counted};
ghost use Rattle.wm_run.specs.Owed.{IsOwedByGenerated};
ghost use Rattle.wm_run.specs.Standing.{Stands};

use crate::status::Status;
use crate::tell::{tell, tell_line};
use arrayvec::ArrayString;
use edit_job::laws::steps_have_one_end;
use face_api::{Face, Faces};
use generator::gen_input;
use input_due::{Follows, due_of_document};
use io_edge::{Sink, SteadySink};
use itoa::Buffer;
use std::alloc::{AllocError, Global};
use std::sync::ledger::Ledger;
use wm_units::{Steps, View};

/// Goes through the generated input of so many paragraphs, and writes a line that counts what is due for it.
pub(crate) fn tell_generated<K: Sink, L: Ledger, M: Ledger>(
    alloc: Global,
    view: View,
    faces: Faces,
    count: u32,
    sink: &mut K,
    prepared: &mut Steps<L>,
    arranged: &mut Steps<M>,
) -> Status
    requires view { IsView view }
    requires some { 1 ≤ count }
    requires few { count ≤ 1000 }
    ensures stands { Stands (IsDueOfGenerated (faces_of ⟦<dyn Face as Face>⟧ faces) view count) (K.held sink.old) (K.held sink.new) result }
    ensures no_usage { result ≡ Status.Usage → ⊥ }
    ensures no_refusal { result ≡ Status.Refused → ⊥ }
    ensures no_read_fault { result ≡ Status.ReadFault → ⊥ }
    ensures counts { (owed : Owed) → IsOwedByGenerated (faces_of ⟦<dyn Face as Face>⟧ faces) view count owed → RiseBy owed prepared.old prepared.new arranged.old arranged.new }
    ensures write_fault { result ≡ Status.WriteFault → Rose (K.faults sink.old) (K.faults sink.new) }
{
    match written_for(alloc, view, faces, count, prepared, arranged) {
        Ok(written) => tell_line(
            line_of(count, written.bytes()).as_bytes(),
            sink,
            Status::Done,
        ),
        Err(_) => Status::Memory,
    }
}

// What is due for the generated input.
fn written_for<L: Ledger, M: Ledger>(
    alloc: Global,
    view: View,
    faces: Faces,
    count: u32,
    prepared: &mut Steps<L>,
    arranged: &mut Steps<M>,
) -> Result<SteadySink, AllocError>
    requires view { IsView view }
    requires some { 1 ≤ count }
    requires few { count ≤ 1000 }
    ensures is { IfOk result (λ written. (end_ : End) × IsDueOfDocument (faces_of ⟦<dyn Face as Face>⟧ faces) view Follows.Script (gen_input count) end_ written) }
    ensures only { IfOk result (λ written. (end_ : End) (other : List ℕ) → IsDueOfDocument (faces_of ⟦<dyn Face as Face>⟧ faces) view Follows.Script (gen_input count) end_ other → other ≡ written) }
    ensures counts { (owed : Owed) → IsOwedByGenerated (faces_of ⟦<dyn Face as Face>⟧ faces) view count owed → RiseBy owed prepared.old prepared.new arranged.old arranged.new }
{
    steps_have_one_end();
    let input = gen_input(alloc, count)?;
    let due = due_of_document(alloc, view, faces, &input, Follows::Script)?;
    let mut sink = SteadySink::new(alloc);
    match tell(alloc, due, &mut sink, prepared, arranged) {
        Status::Done | Status::Refused => Ok(sink),
        Status::Usage | Status::Memory | Status::ReadFault | Status::WriteFault => Err(AllocError),
    }
}

// The line of counts.
#[tactic(auto, unfolding(crate::specs::Job::counted))]
fn line_of(count: u32, written: &[u8]) -> ArrayString<96>
    requires { count ≤ 1000 }
    ensures { result.bytes ≡ counted count written.now }
{
    let mut line = ArrayString::new();
    line.push_str("gen ");
    line.push_str(Buffer::new().format(count));
    line.push_str(" bytes ");
    line.push_str(Buffer::new().format(written.len()));
    line.push_str(" lines ");
    line.push_str(Buffer::new().format(lines_in(written)));
    line.push_str("\n");
    line
}

// How many lines there are.
fn lines_in(written: &[u8]) -> usize
    ensures { result ≡ count_by (λ byte. byte == 10) written.now }
{
    written.iter().filter(|byte| **byte == b'\n').count()
}
