//! What is due for an input: the steps over its document, the answers over its page, its flow with the page in each mode, or its refusal.

ghost use Rattle.std.specs.Prelude.{◌≡◌, ◌≤◌, length};
ghost use Rattle.face_api.specs.Faces.{faces_of};
ghost use Rattle.dom_store.specs.State.{state_of};
ghost use Rattle.session.specs.State.{IsSound, rules_in};
ghost use Rattle.style_modes.specs.Tying.{first_of, tying_places};
ghost use Rattle.input_due.specs.Document.{due_by_tie};
ghost use Rattle.input_due.specs.Due.{cause_word, not_opened};
ghost use Rattle.input_due.specs.declared.due.Cause.TheVariants as Causes;
ghost use Rattle.input_due.specs.declared.due.Due.TheVariants as Dues;

use edit_script::Script;
use face_api::Face;
use hit_caret::Probes;
use html_read::Refusal;
use session::{OpenError, Session};

/// What is due for an input. Nothing is written before all of the input is read and its document can be opened.
#[derive(Drop)]
pub enum Due {
    /// What the steps of a script write over a document.
    Steps { session: Session, script: Script },
    /// The answers to the lines of a probe over the page of a document.
    Answers { session: Session, probes: Probes },
    /// The flow of a document, which no declaration ties to one mode, and its page in each of four modes.
    Pages { session: Session },
    /// A line of refusal, with its cause, and its place in bytes or the number of its node.
    Refused { cause: Cause, place: usize },
}

impl Due {
    /// The refusal of what is no document.
    pub(crate) fn no_document(kind: Refusal, place: usize) -> Due
        ensures { result ≡ Dues.Refused (Causes.Document kind) place }
    {
        Due::Refused {
            cause: Cause::Document(kind),
            place,
        }
    }

    /// The refusal of styles.
    pub(crate) fn no_styles(kind: css_values::Refusal, place: usize) -> Due
        ensures { result ≡ Dues.Refused (Causes.Style kind) place }
    {
        Due::Refused {
            cause: Cause::Style(kind),
            place,
        }
    }

    /// The flow of a document and its pages; the refusal of one that a declaration ties to a mode.
    pub(crate) fn in_modes(session: Session) -> Due
        requires { IsSound (faces_of ⟦<dyn Face as Face>⟧ session.faces) session }
        ensures { result ≡ due_by_tie session (first_of (tying_places (rules_in session) (state_of session.document))) }
    {
        match session.physical() {
            Some(place) => Due::Refused {
                cause: Cause::NotTurnable,
                place,
            },
            None => Due::Pages { session },
        }
    }

    /// The refusal of a document that can't be opened; none where memory ran out.
    pub(crate) fn not_opened(error: OpenError) -> Option<Due>
        ensures { result ≡ not_opened error }
    {
        let node = error.node()?;
        Some(Due::Refused {
            cause: Cause::Opening(error),
            place: node as usize,
        })
    }
}

/// Why an input is refused (docs/PROFILE/commands.md).
#[derive(Clone, Copy)]
pub enum Cause {
    /// It has more bytes than an input may have.
    TooLong,
    /// It is no document.
    Document(Refusal),
    /// Its style sheets or its style attributes are refused.
    Style(css_values::Refusal),
    /// What stands behind its document is no script.
    Script(edit_script::Refusal),
    /// What stands behind its document are no lines of a probe.
    Probe(hit_caret::Refusal),
    /// Its document can't be opened.
    Opening(OpenError),
    /// A declaration ties its document to one mode.
    NotTurnable,
}

impl Cause {
    /// The word that a line of refusal has for it.
    #[tactic(auto, unfolding(crate::specs::Due::cause_word))]
    pub fn word(self) -> &'static str
        ensures word { result.now ≡ cause_word self }
        ensures short { length result.now ≤ 17 }
    {
        match self {
            Cause::TooLong => "TooLong",
            Cause::Document(kind) => kind.word(),
            Cause::Style(kind) => kind.word(),
            Cause::Script(kind) => kind.word(),
            Cause::Probe(kind) => kind.word(),
            Cause::Opening(error) => error.word(),
            Cause::NotTurnable => "NotTurnable",
        }
    }
}
