//! The program `count_text` takes the text on standard input so far as its word says, and prints how many characters it has, or
//! why it is refused. It does what levels and units cost and nothing else, so that this can be counted (tools/count-text).
//!
//! - `read`: the text is read, as a list of characters.
//! - `levels`: besides, its levels as one bidi paragraph are resolved (UAX 9).
//! - `order`: besides, its characters are put in the order of one line.
//! - `units`: in place of levels, its units with their advances are made, in horizontal lines.
//! - `vertical-units`: the same in lines from top to bottom.
#![tactic(auto)]

mod counting;
mod error;
mod measure;

use counting::count;
use error::CountError;
use io_edge::{StdSource, read_all};
use measure::{Measure, measure_of};
use std::env::Env;
use std::io::Write;
use std::{env, io};

/// How many bytes a text may have.
const GREATEST_LENGTH: usize = 1_048_576;

fn main(rt: HostRuntime) -> io::Result<()> {
    let mut output = io::writer(&rt);
    let Some(measure) = asked(&rt)? else {
        return writeln!(
            output,
            "one of the words read, levels, order, units and vertical-units is needed"
        );
    };
    let mut source = StdSource::new(rt.reader());
    let answer = match read_all(rt.alloc(), &mut source, GREATEST_LENGTH) {
        Ok(bytes) => count(rt.alloc(), bytes.as_slice(), measure),
        Err(error) => Err(CountError::from(error)),
    };
    match answer {
        Ok(count) => writeln!(output, "{count} characters"),
        Err(error) => writeln!(output, "refused: {error}"),
    }
}

// What the command line asks for, where it has one word that says so.
fn asked(rt: &(impl Env + AllocGlobal)) -> io::Result<Option<Measure>> {
    let mut words = env::args(rt)?.skip(1);
    match (words.next(), words.next()) {
        (Some(word), None) => Ok(measure_of(word.as_str())),
        _ => Ok(None),
    }
}
