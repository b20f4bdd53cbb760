//! Why the words of a command line give no job.

ghost use Rattle.std.specs.Prelude.{◌≡◌};
ghost use Rattle.command_line.specs.declared.error.WordsError.TheVariants.{Memory};

use std::alloc::AllocError;
use thiserror::Error;

/// Why the words of a command line give no job.
#[derive(Clone, Copy, Debug, Drop, Error, PartialEq, Eq)]
pub enum WordsError {
    /// They are not those of a command.
    #[error("not a command")]
    Usage,
    /// No memory was left.
    #[error("out of memory")]
    Memory,
}

impl From<AllocError> for WordsError {
    ghost from_gives = { λ _ error. error ≡ Memory };

    fn from(_error: AllocError) -> WordsError {
        WordsError::Memory
    }
}
