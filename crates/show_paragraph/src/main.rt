//! The program `show_paragraph` lays out one paragraph of mixed text in lines from top to bottom, with a face of its own, and
//! prints its lines, boxes and runs (docs/PARAGRAPHS.md).
#![tactic(auto)]

ghost use Rattle.std.specs.Prelude.{◌≡◌, ◌<◌};

mod face;
mod layout;
mod printed;

use face::GridFace;
use face_api::{Face, Faces};
use layout::lay_out;
use printed::print_fragments;
use std::alloc::Global;
use std::io;
use std::io::Write;
use std::marker::Brand;
use std::sync::ledger::{Blank, Ledger};
use wm_units::Steps;

fn main(rt: HostRuntime) -> io::Result<()> {
    let mut output = io::writer(&rt);
    show::<_, Brand, Brand>(rt.alloc(), &mut output, Blank::new(1), Blank::new(1))
}

// Lays the paragraph out and prints it, with counters of its own.
fn show<W: Write, L: Ledger, M: Ledger>(
    alloc: Global,
    output: &mut W,
    first: Blank,
    second: Blank,
) -> io::Result<()>
    requires first_name { first.name ≡ L.name }
    requires first_parts { first.parts ≡ L.parts }
    requires first_some { 0 < first.parts }
    requires second_name { second.name ≡ M.name }
    requires second_parts { second.parts ≡ M.parts }
    requires second_some { 0 < second.parts }
{
    let mut own: Vec<Box<dyn Face>> = Vec::new(alloc);
    own.push(Box::new(alloc, GridFace)?)?;
    let faces = Faces::new(alloc, own)?;
    let mut prepared = Steps::<L>::open(first);
    let mut arranged = Steps::<M>::open(second);
    let lines = lay_out(alloc, &faces, &mut prepared, &mut arranged)?;
    print_fragments(output, &lines, 0)
}
