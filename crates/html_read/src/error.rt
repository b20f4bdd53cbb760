//! Why a document could not be read.

use html_tokens::Refusal;
use thiserror::Error;

/// Why a document or a fragment was not read.
#[derive(Clone, Copy, Debug, Drop, Error, PartialEq, Eq)]
pub enum HtmlError {
    /// It is refused at a place in bytes.
    #[error("{kind:?} at byte {place}")]
    Refused { kind: Refusal, place: usize },
    /// No memory was left.
    #[error("out of memory")]
    Memory,
}
