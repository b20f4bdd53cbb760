//! The program `count_styles` takes the document on standard input so far as its word says, and prints how many nodes it
//! has, or why it is refused. It does what styles cost and nothing else, so that this can be counted (tools/count-styles).
//!
//! - `document`: the document is read.
//! - `read`: besides, its style sheets and style attributes are read.
//! - `nodes`: besides, the nodes are stored, and the rules made ready.
//! - `styles`: besides, each node has its style.
//! - `boxes`: besides, the boxes are made.
#![tactic(auto)]

mod counting;
mod error;
mod stage;

use counting::count;
use error::CountError;
use io_edge::{StdSource, read_all};
use stage::{Stage, stage_of};
use std::env::Env;
use std::io::Write;
use std::{env, io};

/// How many bytes a document may have.
const GREATEST_LENGTH: usize = 1_048_576;

fn main(rt: HostRuntime) -> io::Result<()> {
    let mut output = io::writer(&rt);
    let Some(stage) = asked(&rt)? else {
        return writeln!(
            output,
            "one of the words document, read, nodes, styles and boxes is needed"
        );
    };
    let mut source = StdSource::new(rt.reader());
    let answer = match read_all(rt.alloc(), &mut source, GREATEST_LENGTH) {
        Ok(bytes) => count(rt.alloc(), bytes.as_slice(), stage),
        Err(error) => Err(CountError::from(error)),
    };
    match answer {
        Ok(count) => writeln!(output, "{count} nodes"),
        Err(error) => writeln!(output, "refused: {error}"),
    }
}

// How far the command line says, where it has one word that says so.
fn asked(rt: &(impl Env + AllocGlobal)) -> io::Result<Option<Stage>> {
    let mut words = env::args(rt)?.skip(1);
    match (words.next(), words.next()) {
        (Some(word), None) => Ok(stage_of(word.as_str())),
        _ => Ok(None),
    }
}
