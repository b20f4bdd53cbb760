//! Why the boxes of a document may not stand as they do.

ghost use Rattle.std.specs.Prelude.{◌≡◌};
ghost use Rattle.box_limits.specs.declared.error.LimitError.TheVariants.{Limit, Memory};

use box_gen::BoxLimit;
use std::alloc::AllocError;
use thiserror::Error;

/// Why the boxes of a document may not stand as they do.
#[derive(Error, Clone, Copy, Debug, PartialEq, Eq)]
pub enum LimitError {
    /// They pass the limit.
    #[error("{0}")]
    Limit(BoxLimit),
    #[error("Memory")]
    Memory,
}

impl From<BoxLimit> for LimitError {
    ghost from_gives = { λ limit own. own ≡ Limit limit };

    fn from(limit: BoxLimit) -> LimitError {
        LimitError::Limit(limit)
    }
}

impl From<AllocError> for LimitError {
    ghost from_gives = { λ _ own. own ≡ Memory };

    fn from(_: AllocError) -> LimitError {
        LimitError::Memory
    }
}
