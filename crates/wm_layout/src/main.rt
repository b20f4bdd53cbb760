//! The program `wm_layout`: the words of the command line, its three faces, standard input and standard output
//! are handed to `run`, and its status ends the process.
#![tactic(auto)]

ghost use Rattle.std.specs.Prelude.{◌≡◌, ◌<◌, IfErr};

use face_api::{Face, MonoFace, TableFace, WideFace};
use io_edge::{Sink, Source, StdSink, StdSource};
use std::alloc::AllocError;
use std::env::Env;
use std::marker::Brand;
use std::process::ExitCode;
use std::sync::ledger::{Blank, Ledger};
use std::{env, io};
use wm_run::{Status, Words, run};
use wm_units::Steps;

fn main(rt: HostRuntime) -> ExitCode {
    let mut source = StdSource::new(rt.reader());
    let mut sink = StdSink::new(io::writer(&rt));
    let status = match answer::<_, _, _, Brand, Brand>(
        &rt,
        &mut source,
        &mut sink,
        Blank::new(1),
        Blank::new(1),
    ) {
        Ok(status) => status,
        Err(AllocError) => Status::Memory,
    };
    ExitCode::from(status as u8)
}

// Runs the words of the command line, with counters of its own. Where there is no memory for the words or for the faces, nothing is
// read or written.
fn answer<E: Env + AllocGlobal, S: Source, K: Sink, L: Ledger, M: Ledger>(
    rt: &E,
    source: &mut S,
    sink: &mut K,
    first: Blank,
    second: Blank,
) -> Result<Status, AllocError>
    requires first_name { first.name ≡ L.name }
    requires first_parts { first.parts ≡ L.parts }
    requires first_some { 0 < first.parts }
    requires second_name { second.name ≡ M.name }
    requires second_parts { second.parts ≡ M.parts }
    requires second_some { 0 < second.parts }
    ensures source { IfErr result (λ e. source.new ≡ source.old) }
    ensures sink { IfErr result (λ e. sink.new ≡ sink.old) }
{
    let alloc = rt.alloc();
    let words = words(rt)?;
    let mut faces: Vec<Box<dyn Face>> = Vec::new(alloc);
    faces.push(Box::new(alloc, MonoFace::new())?)?;
    faces.push(Box::new(alloc, WideFace::new())?)?;
    faces.push(Box::new(alloc, TableFace::new(alloc)?)?)?;
    let mut prepared = Steps::<L>::open(first);
    let mut arranged = Steps::<M>::open(second);
    Ok(run(
        alloc,
        &words,
        faces,
        source,
        sink,
        &mut prepared,
        &mut arranged,
    ))
}

// The words of the command line. One that is no text stands as U+FFFD, which no command has.
fn words(rt: &(impl Env + AllocGlobal)) -> Result<Words, AllocError> {
    let mut words = Words::new(rt.alloc());
    match env::args(rt) {
        Ok(args) => {
            for word in args.skip(1) {
                words.push(word.as_str())?;
            }
        }
        Err(error) if error.kind() == io::ErrorKind::OutOfMemory => return Err(AllocError),
        Err(_) => words.push("\u{fffd}")?,
    }
    Ok(words)
}
