//! What stands behind a document: the steps of a script, a probe, or no lines.

ghost use Rattle.std.specs.Prelude.{◌≡◌, ◌≤◌, length, IfOk};
ghost use Rattle.edit_script.specs.Script as scripts;
ghost use Rattle.edit_script.specs.Views.{steps_of};
ghost use Rattle.face_api.specs.Faces.{faces_of};
ghost use Rattle.hit_caret.specs.Probing as probing;
ghost use Rattle.session.specs.State.{IsSound};
ghost use Rattle.input_due.specs.Asked.{FitsAsked, bytes_asked, one_page, probes_at, steps_at};
ghost use Rattle.input_due.specs.Document.{ReadsLines, asked_in, asked_of, due_over};
ghost use Rattle.input_due.specs.declared.due.Cause.TheVariants as Causes;
ghost use Rattle.input_due.specs.declared.lines.Halt.TheVariants as halts;

use crate::due::{Cause, Due};
use crate::follows::Follows;
use edit_script::{Script, ScriptError, ScriptLine, ScriptStep, read_script};
use face_api::Face;
use hit_caret::{ProbeError, Probes, read_probe};
use session::Session;
use std::alloc::{AllocError, Global};

/// What stands behind a document: what it may be, its text, and the place of its first byte in the input.
#[derive(Clone, Copy)]
pub(crate) struct Behind<'a> {
    pub(crate) follows: Follows,
    pub(crate) text: &'a str,
    pub(crate) start: usize,
}

/// What was read behind a document.
#[derive(Drop)]
pub(crate) enum Lines {
    Steps(Script),
    Probes(Probes),
    Modes,
}

/// Why it was not read.
#[derive(Clone, Copy, Drop)]
pub(crate) enum Halt {
    Refused { cause: Cause, place: usize },
    Memory,
}

impl From<ScriptError> for Halt {
    ghost use Rattle.input_due.specs.Document.{of_script_error};

    ghost from_gives = { λ error halt. halt ≡ of_script_error error };

    fn from(error: ScriptError) -> Halt {
        match error {
            ScriptError::Refused { kind, place } => Halt::Refused {
                cause: Cause::Script(kind),
                place,
            },
            ScriptError::Memory => Halt::Memory,
        }
    }
}

impl From<ProbeError> for Halt {
    ghost use Rattle.input_due.specs.Document.{of_probe_error};

    ghost from_gives = { λ error halt. halt ≡ of_probe_error error };

    fn from(error: ProbeError) -> Halt {
        match error {
            ProbeError::Refused { kind, place } => Halt::Refused {
                cause: Cause::Probe(kind),
                place,
            },
            ProbeError::Memory => Halt::Memory,
        }
    }
}

impl From<AllocError> for Halt {
    ghost from_gives = { λ _ halt. halt ≡ halts.Memory };

    fn from(_error: AllocError) -> Halt {
        Halt::Memory
    }
}

impl Lines {
    /// What is due for them over a session.
    pub(crate) fn over(self, session: Session) -> Due
        requires { IsSound (faces_of ⟦<dyn Face as Face>⟧ session.faces) session }
        ensures { result ≡ due_over session self }
    {
        match self {
            Lines::Steps(script) => Due::Steps { session, script },
            Lines::Probes(probes) => Due::Answers { session, probes },
            Lines::Modes => Due::in_modes(session),
        }
    }
}

/// Reads what stands behind a document: the steps of a script or the lines of a probe; or none are asked for, and it is the page once,
/// or the flow and the page in each mode.
pub(crate) fn read_lines(alloc: Global, behind: Behind<'_>) -> Result<Lines, Halt>
    ensures read { ReadsLines result (asked_in behind.entry) }
    ensures fits { IfOk result (λ lines. FitsAsked (asked_of lines)) }
    ensures bytes { IfOk result (λ lines. bytes_asked (asked_of lines) ≤ length behind.entry.text.now) }
{
    match behind.follows {
        Follows::Nothing => {
            let script = one_page(alloc)?;
            Ok(Lines::Steps(script))
        }
        Follows::Script => script_lines(alloc, behind.text, behind.start),
        Follows::Probe => probe_lines(alloc, behind.text, behind.start),
        Follows::Modes => Ok(Lines::Modes),
    }
}

// The page once.
fn one_page(alloc: Global) -> Result<Script, AllocError>
    ensures { IfOk result (λ script. steps_of script.items ≡ one_page) }
{
    let mut script = Script::new(alloc);
    script.push(ScriptLine {
        line: 1,
        what: ScriptStep::Show,
    })?;
    Ok(script)
}

// The steps of a script that begins at this place.
#[tactic(auto, unfolding(crate::specs::Due::cause_word))]
fn script_lines(alloc: Global, text: &str, start: usize) -> Result<Lines, Halt>
    ensures read { ReadsLines result (steps_at start (scripts.script text.now)) }
    ensures fits { IfOk result (λ lines. FitsAsked (asked_of lines)) }
    ensures bytes { IfOk result (λ lines. bytes_asked (asked_of lines) ≤ length text.now) }
{
    let script = read_script(alloc, text, start)?;
    Ok(Lines::Steps(script))
}

// The lines of a probe that begins at this place.
#[tactic(auto, unfolding(crate::specs::Due::cause_word))]
fn probe_lines(alloc: Global, text: &str, start: usize) -> Result<Lines, Halt>
    ensures read { ReadsLines result (probes_at start (probing.probes text.now)) }
    ensures fits { IfOk result (λ lines. FitsAsked (asked_of lines)) }
    ensures bytes { IfOk result (λ lines. bytes_asked (asked_of lines) ≤ length text.now) }
{
    let probes = read_probe(alloc, text, start)?;
    Ok(Lines::Probes(probes))
}
