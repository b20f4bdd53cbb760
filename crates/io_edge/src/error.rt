//! Why bytes could not be read to their end, or written as a whole.

ghost use Rattle.std.specs.Prelude.{◌≡◌};
ghost use Rattle.io_edge.specs.Error.{read_error, write_error};
ghost use Rattle.io_edge.specs.declared.error.ReadError.TheVariants.{Memory as read_memory};
ghost use Rattle.io_edge.specs.declared.error.WriteError.TheVariants.{Memory as write_memory};

use crate::IoFail;
use std::alloc::AllocError;
use thiserror::Error;

/// Memory ran out.
pub type Memory = AllocError;

/// Why the bytes of a source could not be read to their end.
#[derive(Clone, Copy, Debug, PartialEq, Eq, Error)]
pub enum ReadError {
    /// The source failed, and its count of faults rose.
    #[error("the input could not be read")]
    ReadFault,
    /// There are more bytes than were asked for.
    #[error("the input is too long")]
    TooLong,
    /// Memory ran out.
    #[error("out of memory")]
    Memory,
}

/// Why bytes could not be written as a whole.
#[derive(Clone, Copy, Debug, PartialEq, Eq, Error)]
pub enum WriteError {
    /// The sink failed, and its count of faults rose.
    #[error("the output could not be written")]
    WriteFault,
    /// Memory ran out.
    #[error("out of memory")]
    Memory,
}

impl From<IoFail> for ReadError {
    ghost from_gives = { λ fail error. error ≡ read_error fail };

    fn from(fail: IoFail) -> Self {
        match fail {
            IoFail::Failed => ReadError::ReadFault,
            IoFail::Memory => ReadError::Memory,
        }
    }
}

impl From<AllocError> for ReadError {
    ghost from_gives = { λ _ error. error ≡ read_memory };

    fn from(_: AllocError) -> Self {
        ReadError::Memory
    }
}

impl From<IoFail> for WriteError {
    ghost from_gives = { λ fail error. error ≡ write_error fail };

    fn from(fail: IoFail) -> Self {
        match fail {
            IoFail::Failed => WriteError::WriteFault,
            IoFail::Memory => WriteError::Memory,
        }
    }
}

impl From<AllocError> for WriteError {
    ghost from_gives = { λ _ error. error ≡ write_memory };

    fn from(_: AllocError) -> Self {
        WriteError::Memory
    }
}
