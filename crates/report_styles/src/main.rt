//! The program `report_styles` takes a document on standard input and tells what becomes of each declaration of its style
//! sheets and style attributes, for those who want to know why one has no effect (tools/lint). It judges by the readers
//! that `wm_layout` reads with. What these would stop at is told, and the program goes on behind it.
//!
//! A line is one of these, with a place in bytes:
//!
//! - `Kept PLACE NAME`: the declaration declares something.
//! - `UnknownName PLACE NAME`: it is dropped, since no property has its name.
//! - `InvalidValue PLACE NAME`: it is dropped, since its property doesn't take its value.
//! - `Unsupported PLACE NAME`: the document is refused for it.
//! - `refused KIND PLACE`: the document is refused, since the text doesn't go on there as HTML or CSS does, or for a
//!   selector or a rule that the profile doesn't have.
//! - `unread: REASON`: the input could not be read.
//!
//! The sheets come first, then the attributes, each in the order of the document. In an attribute the place is that of
//! the attribute's name. Last comes `refused TooManyRules PLACE`, where reading stops for that: what else is refused
//! before that place has to be mended first.
#![tactic(auto)]

mod going_on;
mod reporting;
mod rules;
mod telling;
mod writing;

ghost use Rattle.std.specs.Prelude.{OnOk};
ghost use Rattle.std.specs.Io.KnownBytes.{Appends};
ghost use Rattle.report_styles.specs.Lines.{report_of};

use html_read::{HtmlError, read_document};
use io_edge::WriteError;
use report_lines::{Report, run, write_refused};
use reporting::told_of;
use std::alloc::{AllocError, Global};
use std::io;
use std::io::Write;
use writing::write_all_told;

fn main(rt: HostRuntime) -> Result<(), WriteError> {
    run(&rt, &Styles)
}

/// What becomes of the declarations of a document.
struct Styles;

impl Report for Styles {
    ghost due = { λ _. report_of };

    fn lines(&self, alloc: Global, bytes: &[u8]) -> Result<Vec<u8>, AllocError> {
        let mut lines = Vec::new(alloc);
        match report(alloc, bytes, &mut lines) {
            Ok(()) => Ok(lines),
            Err(_) => Err(AllocError),
        }
    }
}

/// Writes what is told of the document that the bytes begin with, or the line of its refusal.
fn report<W: Write>(alloc: Global, bytes: &[u8], output: &mut W) -> io::Result<()>
    ensures { OnOk result (Appends (W.contents output.old) (W.contents output.new) (report_of bytes.now)) }
{
    match read_document(alloc, bytes) {
        Ok(document) => {
            let told = told_of(alloc, &document)?;
            write_all_told(&told, output)
        }
        Err(HtmlError::Refused { kind, place }) => write_refused(kind.word(), place, output),
        Err(HtmlError::Memory) => Err(io::ErrorKind::OutOfMemory.into()),
    }
}
