//! The program `check_styles` answers for documents, one a line, with their styles and their boxes, so that the way from
//! bytes to boxes can be compared with others.
//!
//! A line has the bytes of a document in hexadecimal. The answer ends with an empty line. Before it stand, line by line:
//!
//! - Each node in document order: its number, that of its parent, and what it is, a text with its bytes in hexadecimal.
//!   Then come the fields of its style that differ from those of its parent's, for `html` from the initial ones, as in
//!   `2 in 1: element font-size=640 margin-top=Length(512)`. Values have the names of their variants. Numbers are in
//!   units, those of `Percent` and `Number` in hundredths.
//! - Each box before those inside it: its name, that of the box that it stands in, and what it holds, `blocks` or a
//!   `paragraph` with its items, as in `box 2.1 in 2.0: paragraph text 3, open 4, close 4, break 5, atom 6.0`. A piece of an
//!   inline box that begins or ends without the box's edges there is `resume 4` or `pause 4`.
//! - What is refused has its cause and its place or node, as in `refused CssSyntax 34` or `refused TooDeep 64`. For
//!   `TooManyOrthogonal` the nodes stand before it, for all else nothing.
//! - For a line that is no such number: `not a case`.
#![tactic(auto)]

mod boxes;
mod differences;
mod engine;
mod refusals;
mod styles;

use box_gen::{boxes, check_boxes};
use boxes::print_boxes;
use engine::style;
use hex::FromHexError;
use refusals::{print_limit, print_refusal};
use std::alloc::Global;
use std::io;
use std::io::{BufRead, BufReader, BufWriter, Write};
use style_types::StyledNode;
use styles::print_styles;

fn main(rt: HostRuntime) -> io::Result<()> {
    let input = BufReader::new(rt.alloc(), rt.reader())?;
    let mut output = BufWriter::new(rt.alloc(), io::writer(&rt))?;
    for line in input.lines(rt.alloc()) {
        let line = line?;
        answer(rt.alloc(), line.as_str(), &mut output)?;
        writeln!(output)?;
    }
    output.flush()
}

fn answer<W: Write>(alloc: Global, line: &str, output: &mut W) -> io::Result<()> {
    match hex::decode(alloc, line) {
        Ok(document) => answer_document(alloc, &document, output),
        Err(FromHexError::OutOfMemory) => Err(io::ErrorKind::OutOfMemory.into()),
        Err(_) => writeln!(output, "not a case"),
    }
}

fn answer_document<W: Write>(alloc: Global, document: &[u8], output: &mut W) -> io::Result<()> {
    match style(alloc, document) {
        Ok(root) => answer_root(alloc, &root, output),
        Err(error) => print_refusal(output, error),
    }
}

fn answer_root<W: Write>(alloc: Global, root: &StyledNode, output: &mut W) -> io::Result<()> {
    print_styles(output, root)?;
    match check_boxes(root) {
        Ok(()) => {
            let tree = boxes(alloc, root)?;
            print_boxes(output, &tree)
        }
        Err(limit) => print_limit(output, limit),
    }
}
