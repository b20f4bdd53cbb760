//! What may stand after a document in an input.

ghost use Rattle.std.specs.Prelude.{◌≡◌};
ghost use Rattle.input_due.specs.Asked.{has_lines};

/// What stands after the document in an input.
#[derive(Clone, Copy, Debug, PartialEq, Eq)]
pub enum Follows {
    /// No script: white space and comments alone, and the page is listed once.
    Nothing,
    /// A script of edits, from the next line on, which may be empty: then nothing is listed.
    Script,
    /// The lines of a probe, from the next line on, of which there may be none.
    Probe,
    /// No lines: white space and comments alone, and the flow is listed, and the page in each mode.
    Modes,
}

impl Follows {
    /// Whether lines are read.
    pub(crate) fn has_lines(self) -> bool
        ensures { result ≡ has_lines self }
    {
        match self {
            Follows::Nothing | Follows::Modes => false,
            Follows::Script | Follows::Probe => true,
        }
    }
}
