//! Why a probe could not be read.

ghost use Rattle.std.specs.Prelude.{◌≡◌, ◌≤◌, length};
ghost use Rattle.hit_caret.specs.Error.{kind_word};
ghost use Rattle.hit_caret.specs.declared.error.Halt.TheVariants.{Memory};
ghost use Rattle.hit_caret.specs.declared.error.Halt.TheVariants as halts;
ghost use Rattle.hit_caret.specs.declared.error.Refusal.TheVariants.{ScriptSyntax};

use std::alloc::{AllocError, AllocFailed};
use thiserror::Error;

/// What is wrong with a probe (docs/PROFILE/points.md).
#[derive(Clone, Copy, Debug, Drop, PartialEq, Eq)]
pub enum Refusal {
    /// A line is none that a probe has.
    ScriptSyntax,
    /// There are more lines that ask something than 10,000.
    TooManyEdits,
}

impl Refusal {
    /// The word that a line of refusal has for it.
    #[tactic(auto, unfolding(crate::specs::Error::kind_word))]
    pub fn word(self) -> &'static str
        ensures word { result.now ≡ kind_word self }
        ensures short { length result.now ≤ 12 }
    {
        match self {
            Refusal::ScriptSyntax => "ScriptSyntax",
            Refusal::TooManyEdits => "TooManyEdits",
        }
    }
}

/// Why a probe was not read.
#[derive(Clone, Copy, Debug, Drop, Error, PartialEq, Eq)]
pub enum ProbeError {
    /// It is refused at the place in bytes of a line's first byte.
    #[error("{kind:?} at byte {place}")]
    Refused { kind: Refusal, place: usize },
    /// No memory was left.
    #[error("out of memory")]
    Memory,
}

/// Why a line was not read.
#[derive(Clone, Copy, Drop)]
pub(crate) enum Halt {
    Refused(Refusal),
    Memory,
}

// A line doesn't go on as those of a probe do.
impl From<&[u8]> for Halt {
    ghost from_gives = { λ _ halt. halt ≡ halts.Refused ScriptSyntax };

    fn from(_left: &[u8]) -> Halt {
        Halt::Refused(Refusal::ScriptSyntax)
    }
}

impl From<AllocError> for Halt {
    ghost from_gives = { λ _ halt. halt ≡ Memory };

    fn from(_e: AllocError) -> Halt {
        Halt::Memory
    }
}

impl<T: Drop> From<AllocFailed<T>> for Halt {
    ghost from_gives = { λ _ halt. halt ≡ Memory };

    fn from(_e: AllocFailed<T>) -> Halt {
        Halt::Memory
    }
}
