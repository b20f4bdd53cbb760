//! The program `report_nodes` takes a document on standard input and tells where each of its nodes begins, for those who
//! are told a node by its number (tools/where). It reads as `wm_layout` does.
//!
//! Line N, counted from 0, is the place in bytes at which node N begins: of an element that of the `<` of its start tag,
//! of a text that behind the tag before it. Where there is no document, there is one line:
//!
//! - `refused KIND PLACE`: the document is refused, with the place in bytes.
//! - `unread: REASON`: the input could not be read.
#![tactic(auto)]

mod lines;

ghost use Rattle.std.specs.Prelude.{OnOk};
ghost use Rattle.std.specs.Io.KnownBytes.{Appends};
ghost use Rattle.report_nodes.specs.Lines.{report_of};

use html_read::{HtmlError, node_places};
use io_edge::WriteError;
use lines::write_places;
use report_lines::{Report, run, write_refused};
use std::alloc::{AllocError, Global};
use std::io;
use std::io::Write;

fn main(rt: HostRuntime) -> Result<(), WriteError> {
    run(&rt, &Nodes)
}

/// The places of the nodes of a document.
struct Nodes;

impl Report for Nodes {
    ghost due = { λ _. report_of };

    fn lines(&self, alloc: Global, bytes: &[u8]) -> Result<Vec<u8>, AllocError> {
        let mut lines = Vec::new(alloc);
        match report(alloc, bytes, &mut lines) {
            Ok(()) => Ok(lines),
            Err(_) => Err(AllocError),
        }
    }
}

/// Writes the places of the nodes of the document that the bytes begin with, or the line of its refusal.
#[tactic(auto, unfolding(crate::specs::Lines::report_of))]
fn report<W: Write>(alloc: Global, bytes: &[u8], output: &mut W) -> io::Result<()>
    ensures { OnOk result (Appends (W.contents output.old) (W.contents output.new) (report_of bytes.now)) }
{
    match node_places(alloc, bytes) {
        Ok(places) => write_places(&places, output),
        Err(HtmlError::Refused { kind, place }) => write_refused(kind.word(), place, output),
        Err(HtmlError::Memory) => Err(io::ErrorKind::OutOfMemory.into()),
    }
}
