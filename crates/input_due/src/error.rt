//! Why it is not known what is due for an input.

use thiserror::Error;

/// Why it is not known what is due for an input.
#[derive(Clone, Copy, Debug, Error, PartialEq, Eq)]
pub enum InputError {
    /// The source failed.
    #[error("the input can't be read")]
    ReadFault,
    /// No memory was left.
    #[error("out of memory")]
    Memory,
}
