//! Why a state or an edit is refused.

ghost use Rattle.std.specs.Prelude.{◌≡◌, ◌≤◌, length};
ghost use Rattle.dom_store.specs.Error.{error_word};
ghost use Rattle.dom_store.specs.declared.error.EditError.TheVariants.{Memory};

use std::alloc::{AllocError, AllocFailed};
use thiserror::Error;

/// Why there is no document, or why an edit isn't done. A number is that of a node. Where an edit has several reasons
/// to be refused, the first in this order is answered.
#[derive(Error, Clone, Copy, Debug, PartialEq, Eq)]
pub enum EditError {
    /// A named node doesn't live.
    #[error("NoNode")]
    NoNode,
    /// `html` or `body` would be removed or moved, or a node would stand in `html`.
    #[error("IsRoot")]
    IsRoot,
    /// The node isn't a text.
    #[error("NotText")]
    NotText,
    /// The node isn't an element, or is a `br` in which nodes would stand.
    #[error("NotElement")]
    NotElement,
    /// A node would stand in itself or in a node below it.
    #[error("Inside")]
    Inside,
    /// The index is above the count of the other children.
    #[error("BadIndex")]
    BadIndex,
    /// More nodes than 65,536 would live, or more than 4,294,967,295 numbers would have been drawn: the least number past
    /// the limit.
    #[error("TooManyNodes {0}")]
    TooManyNodes(u32),
    /// A node would stand deeper than 64, where `html` is at 1: the least such number.
    #[error("TooDeep {0}")]
    TooDeep(u32),
    #[error("Memory")]
    Memory,
}

impl EditError {
    /// The word that a line of refusal has for it.
    #[tactic(auto, unfolding(crate::specs::Error::error_word))]
    pub fn word(self) -> &'static str
        ensures word { result.now ≡ error_word self }
        ensures short { length result.now ≤ 12 }
    {
        match self {
            EditError::NoNode => "NoNode",
            EditError::IsRoot => "IsRoot",
            EditError::NotText => "NotText",
            EditError::NotElement => "NotElement",
            EditError::Inside => "Inside",
            EditError::BadIndex => "BadIndex",
            EditError::TooManyNodes(_) => "TooManyNodes",
            EditError::TooDeep(_) => "TooDeep",
            EditError::Memory => "Memory",
        }
    }
}

impl From<AllocError> for EditError {
    ghost from_gives = { λ _ error. error ≡ Memory };

    fn from(_: AllocError) -> EditError {
        EditError::Memory
    }
}

impl<T: Drop> From<AllocFailed<T>> for EditError {
    ghost from_gives = { λ _ error. error ≡ Memory };

    fn from(_: AllocFailed<T>) -> EditError {
        EditError::Memory
    }
}
