//! Why a text was not taken so far.

use io_edge::ReadError;
use std::alloc::AllocError;
use thiserror::Error;

/// Why a text was not taken so far.
#[derive(Clone, Copy, Debug, Error, PartialEq, Eq)]
pub(crate) enum CountError {
    /// Its bytes could not be read to their end.
    #[error("{0}")]
    Input(ReadError),
    /// Its bytes are no text.
    #[error("no UTF-8")]
    Encoding,
    /// No memory was left.
    #[error("out of memory")]
    Memory,
}

impl From<ReadError> for CountError {
    fn from(error: ReadError) -> CountError {
        CountError::Input(error)
    }
}

impl From<AllocError> for CountError {
    fn from(_: AllocError) -> CountError {
        CountError::Memory
    }
}
