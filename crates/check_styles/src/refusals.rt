//! How refusals are printed.

use crate::engine::StyleError;
use box_gen::BoxLimit;
use css_values::CssError;
use dom_store::EditError;
use html_read::HtmlError;
use std::io;
use std::io::Write;

/// Prints why a document has no styles.
pub(crate) fn print_refusal<W: Write>(output: &mut W, error: StyleError) -> io::Result<()> {
    match error {
        StyleError::Html(HtmlError::Refused { kind, place }) => {
            writeln!(output, "refused {kind:?} {place}")
        }
        StyleError::Css(CssError::Refused { kind, place }) => {
            writeln!(output, "refused {kind:?} {place}")
        }
        StyleError::Html(HtmlError::Memory)
        | StyleError::Css(CssError::Memory)
        | StyleError::Edit(EditError::Memory)
        | StyleError::Memory => Err(io::ErrorKind::OutOfMemory.into()),
        StyleError::Edit(error) => writeln!(output, "refused {error}"),
    }
}

/// Prints that the boxes of a document pass their limit, and which is the first that does.
pub(crate) fn print_limit<W: Write>(output: &mut W, limit: BoxLimit) -> io::Result<()> {
    writeln!(output, "refused {limit}")
}
