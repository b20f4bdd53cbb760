//! Why a document was not taken so far.

use box_gen::BoxLimit;
use css_values::CssError;
use dom_store::EditError;
use html_read::HtmlError;
use io_edge::ReadError;
use std::alloc::AllocError;
use thiserror::Error;

/// Why a document was not taken so far.
#[derive(Clone, Copy, Debug, Drop, Error, PartialEq, Eq)]
pub(crate) enum CountError {
    /// Its bytes could not be read to their end.
    #[error("{0}")]
    Input(ReadError),
    /// It is no document.
    #[error("{0}")]
    Html(HtmlError),
    /// Its style sheets are refused.
    #[error("{0}")]
    Css(CssError),
    /// Its nodes can't be stored.
    #[error("{0}")]
    Edit(EditError),
    /// Its boxes pass their limit.
    #[error("{0}")]
    Limit(BoxLimit),
    /// No memory was left.
    #[error("out of memory")]
    Memory,
}

impl From<ReadError> for CountError {
    fn from(error: ReadError) -> CountError {
        CountError::Input(error)
    }
}

impl From<HtmlError> for CountError {
    fn from(error: HtmlError) -> CountError {
        CountError::Html(error)
    }
}

impl From<CssError> for CountError {
    fn from(error: CssError) -> CountError {
        CountError::Css(error)
    }
}

impl From<EditError> for CountError {
    fn from(error: EditError) -> CountError {
        CountError::Edit(error)
    }
}

impl From<BoxLimit> for CountError {
    fn from(limit: BoxLimit) -> CountError {
        CountError::Limit(limit)
    }
}

impl From<AllocError> for CountError {
    fn from(_: AllocError) -> CountError {
        CountError::Memory
    }
}
