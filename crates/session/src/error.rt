//! Why a document can't be opened, why an edit isn't done, and why none is taken back or done again.

ghost use Rattle.std.specs.Prelude.{◌≡◌, ◌≤◌, length};
ghost use Rattle.session.specs.Opening.{of_edit_error};
ghost use Rattle.session.specs.declared.error.OpenError.TheVariants.{Limit, Memory};
ghost use Rattle.session.specs.Editing.{of_faces_error, of_limit_error, of_refusal};
ghost use Rattle.session.specs.declared.error.ApplyError.TheVariants.{Memory as apply_memory};
ghost use Rattle.session.specs.declared.error.UndoError.TheVariants.{Memory as undo_memory};
ghost use Rattle.session.specs.Error.{apply_word, open_node, open_word, undo_word};

use box_gen::BoxLimit;
use box_limits::LimitError;
use dom_store::EditError;
use face_api::FacesError;
use std::alloc::AllocError;
use thiserror::Error;

/// Why a document can't be opened. A number is that of a node.
#[derive(Error, Clone, Copy, Debug, PartialEq, Eq)]
pub enum OpenError {
    /// More nodes than 65,536 would live: the least number past the limit.
    #[error("TooManyNodes {0}")]
    TooManyNodes(u32),
    /// A node would stand deeper than 64, where `html` is at 1: the least such number.
    #[error("TooDeep {0}")]
    TooDeep(u32),
    /// Its boxes would pass their limit.
    #[error("{0}")]
    Limit(BoxLimit),
    #[error("Memory")]
    Memory,
}

impl OpenError {
    /// The word that a line of refusal has for it.
    #[tactic(auto, unfolding(crate::specs::Error::open_word))]
    pub fn word(self) -> &'static str
        ensures word { result.now ≡ open_word self }
        ensures short { length result.now ≤ 17 }
    {
        match self {
            OpenError::TooManyNodes(_) => "TooManyNodes",
            OpenError::TooDeep(_) => "TooDeep",
            OpenError::Limit(limit) => limit.word(),
            OpenError::Memory => "Memory",
        }
    }

    /// The number of the node that it tells; none of want of memory.
    pub fn node(self) -> Option<u32>
        ensures { result ≡ open_node self }
    {
        match self {
            OpenError::TooManyNodes(number) => Some(number),
            OpenError::TooDeep(number) => Some(number),
            OpenError::Limit(limit) => Some(limit.node()),
            OpenError::Memory => None,
        }
    }
}

impl From<EditError> for OpenError {
    ghost from_gives = { λ error own. own ≡ of_edit_error error };

    fn from(error: EditError) -> OpenError {
        match error {
            EditError::TooManyNodes(number) => OpenError::TooManyNodes(number),
            EditError::TooDeep(number) => OpenError::TooDeep(number),
            // The others are never answered where a document is opened.
            EditError::NoNode
            | EditError::IsRoot
            | EditError::NotText
            | EditError::NotElement
            | EditError::Inside
            | EditError::BadIndex
            | EditError::Memory => OpenError::Memory,
        }
    }
}

impl From<BoxLimit> for OpenError {
    ghost from_gives = { λ limit own. own ≡ Limit limit };

    fn from(limit: BoxLimit) -> OpenError {
        OpenError::Limit(limit)
    }
}

impl From<AllocError> for OpenError {
    ghost from_gives = { λ _ own. own ≡ Memory };

    fn from(_: AllocError) -> OpenError {
        OpenError::Memory
    }
}

/// Why an edit isn't done. A number is that of a node.
#[derive(Error, Clone, Copy, Debug, PartialEq, Eq)]
pub enum ApplyError {
    /// The document refuses it.
    #[error("{0}")]
    Document(EditError),
    /// There never was such a face, or it is retired.
    #[error("NoFace")]
    NoFace,
    /// The face's table is fixed.
    #[error("Fixed")]
    Fixed,
    /// The face has no room for one more row.
    #[error("Full")]
    Full,
    /// There would be more than 4,096 rules of the author, or more than 65,536 declarations in them.
    #[error("TooManyRules")]
    TooManyRules,
    /// There is no such rule of the author.
    #[error("NoRule")]
    NoRule,
    /// The boxes of the next state would pass their limit.
    #[error("{0}")]
    Limit(BoxLimit),
    #[error("Memory")]
    Memory,
}

impl ApplyError {
    /// The word that a line of refusal has for it.
    #[tactic(auto, unfolding(crate::specs::Error::apply_word))]
    pub fn word(self) -> &'static str
        ensures word { result.now ≡ apply_word self }
        ensures short { length result.now ≤ 17 }
    {
        match self {
            ApplyError::Document(error) => error.word(),
            ApplyError::NoFace => "NoFace",
            ApplyError::Fixed => "Fixed",
            ApplyError::Full => "Full",
            ApplyError::TooManyRules => "TooManyRules",
            ApplyError::NoRule => "NoRule",
            ApplyError::Limit(limit) => limit.word(),
            ApplyError::Memory => "Memory",
        }
    }
}

impl From<EditError> for ApplyError {
    ghost from_gives = { λ error own. own ≡ of_refusal error };

    fn from(error: EditError) -> ApplyError {
        match error {
            EditError::Memory => ApplyError::Memory,
            EditError::NoNode
            | EditError::IsRoot
            | EditError::NotText
            | EditError::NotElement
            | EditError::Inside
            | EditError::BadIndex
            | EditError::TooManyNodes(_)
            | EditError::TooDeep(_) => ApplyError::Document(error),
        }
    }
}

impl From<FacesError> for ApplyError {
    ghost from_gives = { λ error own. own ≡ of_faces_error error };

    fn from(error: FacesError) -> ApplyError {
        match error {
            FacesError::NoFace => ApplyError::NoFace,
            FacesError::Fixed => ApplyError::Fixed,
            FacesError::Full => ApplyError::Full,
            FacesError::Memory => ApplyError::Memory,
        }
    }
}

impl From<AllocError> for ApplyError {
    ghost from_gives = { λ _ own. own ≡ apply_memory };

    fn from(_: AllocError) -> ApplyError {
        ApplyError::Memory
    }
}

impl From<LimitError> for ApplyError {
    ghost from_gives = { λ error own. own ≡ of_limit_error error };

    fn from(error: LimitError) -> ApplyError {
        match error {
            LimitError::Limit(limit) => ApplyError::Limit(limit),
            LimitError::Memory => ApplyError::Memory,
        }
    }
}

/// Why no edit is taken back, or done again.
#[derive(Error, Clone, Copy, Debug, PartialEq, Eq)]
pub enum UndoError {
    /// None is to be taken back: none was done, all were taken back that are kept, or the last one was of a face.
    #[error("NoUndo")]
    NoUndo,
    /// None is to be done again: none was taken back since the last edit.
    #[error("NoRedo")]
    NoRedo,
    #[error("Memory")]
    Memory,
}

impl UndoError {
    /// The word that a line of refusal has for it.
    #[tactic(auto, unfolding(crate::specs::Error::undo_word))]
    pub fn word(self) -> &'static str
        ensures word { result.now ≡ undo_word self }
        ensures short { length result.now ≤ 17 }
    {
        match self {
            UndoError::NoUndo => "NoUndo",
            UndoError::NoRedo => "NoRedo",
            UndoError::Memory => "Memory",
        }
    }
}

impl From<AllocError> for UndoError {
    ghost from_gives = { λ _ own. own ≡ undo_memory };

    fn from(_: AllocError) -> UndoError {
        UndoError::Memory
    }
}
