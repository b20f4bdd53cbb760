//! Why a style sheet or a style attribute could not be read.

ghost use Rattle.std.specs.Prelude.{◌≡◌, ◌≤◌, length};
ghost use Rattle.css_values.specs.Error.{kind_word};
ghost use Rattle.css_values.specs.declared.error.CssError.TheVariants.{Memory as NoMemory};
ghost use Rattle.css_values.specs.declared.error.Refusal.TheVariants.{CssSyntax};

use reading::Kind;
use std::alloc::{AllocError, AllocFailed};
use thiserror::Error;

/// What is wrong with it (docs/PROFILE/css.md).
#[derive(Clone, Copy, Debug, Drop, PartialEq, Eq)]
pub enum Refusal {
    /// The text doesn't go on as CSS does.
    CssSyntax,
    /// It means something that the profile doesn't have.
    Unsupported,
    /// There are more rules or declarations than the limits allow.
    TooManyRules,
}

impl Refusal {
    /// The word that a line of refusal has for it.
    #[tactic(auto, unfolding(crate::specs::Error::kind_word))]
    pub fn word(self) -> &'static str
        ensures word { result.now ≡ kind_word self }
        ensures short { length result.now ≤ 12 }
    {
        match self {
            Refusal::CssSyntax => "CssSyntax",
            Refusal::Unsupported => "Unsupported",
            Refusal::TooManyRules => "TooManyRules",
        }
    }
}

/// Why it was not read.
#[derive(Clone, Copy, Debug, Drop, Error, PartialEq, Eq)]
pub enum CssError {
    /// It is refused at a place in bytes.
    #[error("{kind:?} at byte {place}")]
    Refused { kind: Refusal, place: usize },
    /// No memory was left.
    #[error("out of memory")]
    Memory,
}

impl Kind for Refusal {
    ghost syntax = { CssSyntax };

    fn syntax() -> Refusal {
        Refusal::CssSyntax
    }
}

/// Where reading stopped.
pub type Stop<'a> = reading::Stop<'a, Refusal>;

impl From<AllocError> for CssError {
    ghost from_gives = { λ _ error. error ≡ NoMemory };

    fn from(_e: AllocError) -> CssError {
        CssError::Memory
    }
}

impl<T: Drop> From<AllocFailed<T>> for CssError {
    ghost from_gives = { λ _ error. error ≡ NoMemory };

    fn from(_e: AllocFailed<T>) -> CssError {
        CssError::Memory
    }
}
