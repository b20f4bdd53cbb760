//! Why a script could not be read.

ghost use Rattle.std.specs.Prelude.{◌≡◌, ◌≤◌, length};
ghost use Rattle.html_read.specs.declared.error.HtmlError as html_error;
ghost use Rattle.css_values.specs.declared.error.CssError as css_error;
ghost use Rattle.edit_script.specs.declared.error.Halt.TheVariants.{Memory};
ghost use Rattle.edit_script.specs.declared.error.Halt.TheVariants as halts;
ghost use Rattle.edit_script.specs.declared.error.Refusal.TheVariants.{ScriptSyntax};
ghost use Rattle.edit_script.specs.Error.{kind_word, of_css_error, of_html_error, of_html_stop};

use css_values::CssError;
use html_read::HtmlError;
use reading::Stop;
use std::alloc::{AllocError, AllocFailed};
use thiserror::Error;

/// What is wrong with a script (docs/PROFILE/scripts.md).
#[derive(Clone, Copy, Debug, Drop, PartialEq, Eq)]
pub enum Refusal {
    /// The words of a line are none that a script has.
    ScriptSyntax,
    /// There are more edits than 10,000.
    TooManyEdits,
    /// Pages are listed more than 64 times.
    TooManyShows,
    /// The text or the nodes that an edit brings can't be read.
    Html(html_read::Refusal),
    /// The declarations that an edit brings can't be read.
    Css(css_values::Refusal),
}

impl Refusal {
    /// The word that a line of refusal has for it.
    #[tactic(auto, unfolding(crate::specs::Error::kind_word))]
    pub fn word(self) -> &'static str
        ensures word { result.now ≡ kind_word self }
        ensures short { length result.now ≤ 16 }
    {
        match self {
            Refusal::ScriptSyntax => "ScriptSyntax",
            Refusal::TooManyEdits => "TooManyEdits",
            Refusal::TooManyShows => "TooManyShows",
            Refusal::Html(kind) => kind.word(),
            Refusal::Css(kind) => kind.word(),
        }
    }
}

/// Why a script was not read.
#[derive(Clone, Copy, Debug, Drop, Error, PartialEq, Eq)]
pub enum ScriptError {
    /// It is refused at the place in bytes of a line's first byte.
    #[error("{kind:?} at byte {place}")]
    Refused { kind: Refusal, place: usize },
    /// No memory was left.
    #[error("out of memory")]
    Memory,
}

/// Why a line was not read.
#[derive(Clone, Copy, Drop)]
pub(crate) enum Halt {
    Refused(Refusal),
    Memory,
}

// The words of a line don't go on as those of a script do.
impl From<&[u8]> for Halt {
    ghost from_gives = { λ _ halt. halt ≡ halts.Refused ScriptSyntax };

    fn from(_left: &[u8]) -> Halt {
        Halt::Refused(Refusal::ScriptSyntax)
    }
}

impl From<Stop<'_, html_read::Refusal>> for Halt {
    ghost from_gives = { λ stop halt. halt ≡ of_html_stop stop };

    fn from(stop: Stop<'_, html_read::Refusal>) -> Halt {
        match stop {
            Stop::Refused(kind, _) => Halt::Refused(Refusal::Html(kind)),
            Stop::Memory => Halt::Memory,
        }
    }
}

impl From<HtmlError> for Halt {
    ghost from_gives = { λ error halt. halt ≡ of_html_error error };

    fn from(error: HtmlError) -> Halt {
        match error {
            HtmlError::Refused { kind, .. } => Halt::Refused(Refusal::Html(kind)),
            HtmlError::Memory => Halt::Memory,
        }
    }
}

impl From<CssError> for Halt {
    ghost from_gives = { λ error halt. halt ≡ of_css_error error };

    fn from(error: CssError) -> Halt {
        match error {
            CssError::Refused { kind, .. } => Halt::Refused(Refusal::Css(kind)),
            CssError::Memory => Halt::Memory,
        }
    }
}

impl From<AllocError> for Halt {
    ghost from_gives = { λ _ halt. halt ≡ Memory };

    fn from(_e: AllocError) -> Halt {
        Halt::Memory
    }
}

impl<T: Drop> From<AllocFailed<T>> for Halt {
    ghost from_gives = { λ _ halt. halt ≡ Memory };

    fn from(_e: AllocFailed<T>) -> Halt {
        Halt::Memory
    }
}
