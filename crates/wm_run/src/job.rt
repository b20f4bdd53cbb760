//! The top call: the words, then the input, then what is due for it, and only then the sink.

ghost use Rattle.std.specs.Prelude.{◌≡◌, ◌≤◌, List, ℕ, Some, length};
ghost use Rattle.std.specs.Io.KnownBytes.{Appends, Keeps, IsAtEnd};
ghost use Rattle.face_api.specs.Faces.{all_living, faces_of};
ghost use Rattle.wm_units.specs.View.{IsView};
ghost use Rattle.io_edge.specs.Edge.{Rose};
ghost use Rattle.command_line.specs.Command.{IsJob};
ghost use Rattle.edit_job.specs.Owed.{Owed, RiseBy};
ghost use Rattle.input_due.specs.Input.{IsDueOfInput, longest_input};
ghost use Rattle.input_due.specs.Owed.{IsOwedByInput};
ghost use Rattle.wm_run.specs.Job.{IsDue, IsDueOfGenerated, IsDueOfJob, IsNoJob, Reads, usage_line, with_status};
ghost use Rattle.wm_run.specs.Owed.{IsOwed, IsOwedByGenerated, IsOwedByJob};
ghost use Rattle.wm_run.specs.Standing.{IsUsageOrBroken, Stands};

use crate::generated::tell_generated;
use crate::status::Status;
use crate::tell::{tell, tell_usage};
use command_line::{Command, Job, Words, WordsError, read_words};
use face_api::{Face, Faces};
use input_due::{Follows, InputError, due_of_input};
use io_edge::{Sink, Source};
use std::alloc::Global;
use std::sync::ledger::Ledger;
use wm_units::{Steps, View};

/// Runs the job of the words over the bytes of the source, and writes to the sink what is due.
///
/// The words are those of a command with its options (docs/PROFILE/commands.md); with other words the usage line is written.
/// `layout` lists the page of a document, `edit` goes through the script that stands behind a document, `gen` does the same
/// with the generated input, of which it reads nothing, and counts what would be written. `probe` answers the lines that stand
/// behind a document: what its page has at a point, and where the caret stands at a place of a text. `modes` lists the flow of a
/// document, and its page in horizontal-tb, vertical-rl, sideways-rl and sideways-lr, all of one layout. An input has at most
/// 1,048,576 bytes: a longer one is refused as `TooLong`, bytes that are no document by the kind and the place of what is
/// wrong, styles, scripts and probes that are none by theirs, a document past a limit by the number of a node, and, for `modes`,
/// a document that a declaration ties to one mode as `NotTurnable`, by the place of the first such declaration.
///
/// The faces are one to eight, by numbers from 0 in the order of the list. The run owns them, and drops them when
/// it ends. `prepared` counts paragraphs whose text is prepared, `arranged` lists of lines and of blocks that are put down.
/// Both have no bytes when the program runs. Neither counts more than the job owes to its pages, where the bytes of the source are
/// known or the command reads none of them; no clause says how much they count at least.
pub fn run<S: Source, K: Sink, L: Ledger, M: Ledger>(
    alloc: Global,
    words: &Words,
    faces: Vec<Box<dyn Face>>,
    source: &mut S,
    sink: &mut K,
    prepared: &mut Steps<L>,
    arranged: &mut Steps<M>,
) -> Status
    requires some { 1 ≤ length faces.items }
    requires few { length faces.items ≤ 8 }

    // Whatever words, faces and bytes come, the status and the bytes written are those of the job.
    ensures job { (input : List ℕ) → S.left source.old ≡ Some input
        → Stands (IsDue (all_living ⟦<dyn Face as Face>⟧ faces.items) words.now input) (K.held sink.old) (K.held sink.new) result }

    // So they are whatever the source is, where the command reads nothing of it.
    ensures generated { (job : Job) → IsJob words.now job → (Reads job.command → ⊥)
        → Stands (IsDueOfGenerated (all_living ⟦<dyn Face as Face>⟧ faces.items) job.view job.count) (K.held sink.old) (K.held sink.new) result }

    // Whatever the status, no more texts are prepared and no more contents arranged than the job owes to its pages.
    ensures counts { (input : List ℕ) (owed : Owed) → S.left source.old ≡ Some input
        → IsOwed (all_living ⟦<dyn Face as Face>⟧ faces.items) words.now input owed → RiseBy owed prepared.old prepared.new arranged.old arranged.new }

    // So it is whatever the source is, where the command reads nothing of it.
    ensures generated_counts { (job : Job) (owed : Owed) → IsJob words.now job → (Reads job.command → ⊥)
        → IsOwedByGenerated (all_living ⟦<dyn Face as Face>⟧ faces.items) job.view job.count owed → RiseBy owed prepared.old prepared.new arranged.old arranged.new }

    // The usage line comes exactly where the words give no job. Nothing is taken from the source then.
    ensures usage { result ≡ Status.Usage → IsNoJob words.now × Appends (K.held sink.old) (K.held sink.new) usage_line
        × (S.left source.new ≡ S.left source.old) }
    ensures no_job { IsNoJob words.now → IsUsageOrBroken result }

    // A fault comes only where that stream's count rose. After a read fault nothing is written.
    ensures read_fault { result ≡ Status.ReadFault → ((job : Job) × IsJob words.now job × Reads job.command)
        × Rose (S.faults source.old) (S.faults source.new) × Keeps (K.held sink.old) (K.held sink.new) }
    ensures write_fault { result ≡ Status.WriteFault → Rose (K.faults sink.old) (K.faults sink.new) }

    // The source has none left once its bytes were read to the end, and has all left where the command reads none.
    ensures done { (job : Job) → IsJob words.now job → Reads job.command → result ≡ Status.Done → IsAtEnd (S.left source.new) }
    ensures refused { (input : List ℕ) → S.left source.old ≡ Some input → length input ≤ longest_input
        → result ≡ Status.Refused → IsAtEnd (S.left source.new) }
    ensures untouched { (job : Job) → IsJob words.now job → (Reads job.command → ⊥) → S.left source.new ≡ S.left source.old }
{
    let Ok(faces) = Faces::new(alloc, faces) else {
        return Status::Memory;
    };
    match read_words(alloc, words) {
        Ok(job) => tell_job(alloc, job, faces, source, sink, prepared, arranged),
        Err(WordsError::Usage) => tell_usage(sink),
        Err(WordsError::Memory) => Status::Memory,
    }
}

// Does what the words ask for.
fn tell_job<S: Source, K: Sink, L: Ledger, M: Ledger>(
    alloc: Global,
    job: Job,
    faces: Faces,
    source: &mut S,
    sink: &mut K,
    prepared: &mut Steps<L>,
    arranged: &mut Steps<M>,
) -> Status
    requires view { IsView job.view }
    requires some { 1 ≤ job.count }
    requires few { job.count ≤ 1000 }
    ensures stands { (input : List ℕ) → S.left source.old ≡ Some input
        → Stands (IsDueOfJob (faces_of ⟦<dyn Face as Face>⟧ faces) job input) (K.held sink.old) (K.held sink.new) result }
    ensures generated { (Reads job.command → ⊥)
        → Stands (IsDueOfGenerated (faces_of ⟦<dyn Face as Face>⟧ faces) job.view job.count) (K.held sink.old) (K.held sink.new) result }
    ensures counts { (input : List ℕ) (owed : Owed) → S.left source.old ≡ Some input → IsOwedByJob (faces_of ⟦<dyn Face as Face>⟧ faces) job input owed → RiseBy owed prepared.old prepared.new arranged.old arranged.new }
    ensures generated_counts { (Reads job.command → ⊥) → (owed : Owed) → IsOwedByGenerated (faces_of ⟦<dyn Face as Face>⟧ faces) job.view job.count owed → RiseBy owed prepared.old prepared.new arranged.old arranged.new }
    ensures no_usage { result ≡ Status.Usage → ⊥ }
    ensures read_fault { result ≡ Status.ReadFault → Reads job.command × Rose (S.faults source.old) (S.faults source.new) × Keeps (K.held sink.old) (K.held sink.new) }
    ensures write_fault { result ≡ Status.WriteFault → Rose (K.faults sink.old) (K.faults sink.new) }
    ensures done { Reads job.command → result ≡ Status.Done → IsAtEnd (S.left source.new) }
    ensures refused { (input : List ℕ) → S.left source.old ≡ Some input → length input ≤ longest_input → result ≡ Status.Refused → IsAtEnd (S.left source.new) }
    ensures untouched { (Reads job.command → ⊥) → S.left source.new ≡ S.left source.old }
{
    match job.command {
        Command::Layout => tell_input(
            alloc,
            job.view,
            faces,
            Follows::Nothing,
            source,
            sink,
            prepared,
            arranged,
        ),
        Command::Edit => tell_input(
            alloc,
            job.view,
            faces,
            Follows::Script,
            source,
            sink,
            prepared,
            arranged,
        ),
        Command::Modes => tell_input(
            alloc,
            job.view,
            faces,
            Follows::Modes,
            source,
            sink,
            prepared,
            arranged,
        ),
        Command::Probe => tell_input(
            alloc,
            job.view,
            faces,
            Follows::Probe,
            source,
            sink,
            prepared,
            arranged,
        ),
        Command::Gen => tell_generated(alloc, job.view, faces, job.count, sink, prepared, arranged),
    }
}

// Reads the input, and writes what is due for it.
fn tell_input<S: Source, K: Sink, L: Ledger, M: Ledger>(
    alloc: Global,
    view: View,
    faces: Faces,
    follows: Follows,
    source: &mut S,
    sink: &mut K,
    prepared: &mut Steps<L>,
    arranged: &mut Steps<M>,
) -> Status
    requires view { IsView view }
    ensures stands { (input : List ℕ) → S.left source.old ≡ Some input
        → Stands (with_status (IsDueOfInput (faces_of ⟦<dyn Face as Face>⟧ faces) view follows input)) (K.held sink.old) (K.held sink.new) result }
    ensures counts { (input : List ℕ) (owed : Owed) → S.left source.old ≡ Some input → IsOwedByInput (faces_of ⟦<dyn Face as Face>⟧ faces) view follows input owed → RiseBy owed prepared.old prepared.new arranged.old arranged.new }
    ensures no_usage { result ≡ Status.Usage → ⊥ }
    ensures read_fault { result ≡ Status.ReadFault → Rose (S.faults source.old) (S.faults source.new) × Keeps (K.held sink.old) (K.held sink.new) }
    ensures write_fault { result ≡ Status.WriteFault → Rose (K.faults sink.old) (K.faults sink.new) }
    ensures done { result ≡ Status.Done → IsAtEnd (S.left source.new) }
    ensures refused { (input : List ℕ) → S.left source.old ≡ Some input → length input ≤ longest_input → result ≡ Status.Refused → IsAtEnd (S.left source.new) }
{
    match due_of_input(alloc, view, faces, follows, source) {
        Ok(due) => tell(alloc, due, sink, prepared, arranged),
        Err(InputError::ReadFault) => Status::ReadFault,
        Err(InputError::Memory) => Status::Memory,
    }
}
