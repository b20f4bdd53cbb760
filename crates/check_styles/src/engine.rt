//! A style engine: from the bytes of a document to the style of each of its nodes (docs/STYLE_ENGINE.md).

use cascade::RuleIndex;
use cascade::laws::what_is_read_is_said;
use css_sheet::read_styled;
use css_values::CssError;
use dom_store::{Document, EditError};
use html_read::{HtmlError, read_document, read_tail};
use std::alloc::{AllocError, Global};
use style_tree::styled;
use style_types::StyledNode;

/// Why a document has no styles.
#[derive(Clone, Copy)]
pub(crate) enum StyleError {
    Html(HtmlError),
    Css(CssError),
    Edit(EditError),
    Memory,
}

/// The nodes of a document as a tree, each with its style.
pub(crate) fn style(alloc: Global, bytes: &[u8]) -> Result<StyledNode, StyleError> {
    what_is_read_is_said();
    let read = read_document(alloc, bytes)?;
    read_tail(bytes, read.end, false)?;
    let styles = read_styled(alloc, &read)?;
    let document = Document::from_read(alloc, &read, &styles)?;
    let rules = RuleIndex::new(alloc, &styles.rules)?;
    let root = styled(alloc, &document, &rules)?;
    Ok(root)
}

impl From<HtmlError> for StyleError {
    fn from(error: HtmlError) -> StyleError {
        StyleError::Html(error)
    }
}

impl From<CssError> for StyleError {
    fn from(error: CssError) -> StyleError {
        StyleError::Css(error)
    }
}

impl From<EditError> for StyleError {
    fn from(error: EditError) -> StyleError {
        StyleError::Edit(error)
    }
}

impl From<AllocError> for StyleError {
    fn from(_: AllocError) -> StyleError {
        StyleError::Memory
    }
}
