//! A run with the three faces of the program and counters of its own.

ghost use Rattle.std.specs.Prelude.{◌≡◌, ◌<◌};

use face_api::{Face, MonoFace, TableFace, WideFace};
use io_edge::{Sink, Source};
use std::alloc::Global;
use std::process::Abort;
use std::sync::ledger::{Blank, Ledger};
use std::test::Fail;
use wm_run::{Status, Words, run};
use wm_units::Steps;

/// The words of a command.
pub(crate) fn words(rt: &(impl Abort + AllocGlobal), texts: &[&str]) -> Result<Words, Fail> {
    let mut words = Words::new(rt.alloc());
    for text in texts {
        words.push(text)?;
    }
    Ok(words)
}

/// Runs the words with the three faces of the program, and counters of these blanks.
pub(crate) fn counted<S: Source, K: Sink, L: Ledger, M: Ledger>(
    alloc: Global,
    words: &Words,
    source: &mut S,
    sink: &mut K,
    first: Blank,
    second: Blank,
) -> Result<Status, Fail>
    requires first_name { first.name ≡ L.name }
    requires first_parts { first.parts ≡ L.parts }
    requires first_some { 0 < first.parts }
    requires second_name { second.name ≡ M.name }
    requires second_parts { second.parts ≡ M.parts }
    requires second_some { 0 < second.parts }
{
    let mut faces: Vec<Box<dyn Face>> = Vec::new(alloc);
    faces.push(Box::new(alloc, MonoFace::new())?)?;
    faces.push(Box::new(alloc, WideFace::new())?)?;
    faces.push(Box::new(alloc, TableFace::new(alloc)?)?)?;
    let mut prepared = Steps::<L>::open(first);
    let mut arranged = Steps::<M>::open(second);
    Ok(run(
        alloc,
        words,
        faces,
        source,
        sink,
        &mut prepared,
        &mut arranged,
    ))
}
