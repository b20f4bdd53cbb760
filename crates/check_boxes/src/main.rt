//! The program `check_boxes` answers for numbers, modes, properties, sizes and margins, one question a line. Its run, of which
//! the files `stdin` and `stdout` hold the questions and the answers, is that of the public calls of these crates by
//! values from outside.
//!
//! A question is a line of words. Lengths are decimal, in units of 1/64 px; `-` stands for none; a mode, a direction and a
//! property have their names in CSS.
//!
//! - `fixed`: hundredths. So many of a pixel.
//! - `scaled`: hundredths, a font size. So many of it.
//! - `percent`: hundredths of a percent, a base. So many of it.
//! - `length`: a length. It as a resolved length, as a used size, and its half.
//! - `sides`: a mode and a direction. The sides of the page that are block-start, block-end, inline-start, inline-end, line-over,
//!   line-under, line-left and line-right.
//! - `page`: a mode, a direction, a content area of the page (x, y, w, h), and a rectangle of the flow in it (i, b, inline, block).
//!   The rectangle of the page.
//! - `flow`: a mode, a direction, a content area, and a rectangle of the page. The rectangle of the flow.
//! - `direction`: a mode and a direction. The used direction where text is upright.
//! - `property`: a property, a mode and a used direction. The property of the page.
//! - `available`: the size of the containing block, or `-`, that of the view, and margins with borders and paddings. What an
//!   orthogonal box has.
//! - `contribution`: a block size, borders with paddings, and margins. What an orthogonal box asks of its container.
//! - `equation`: what is available, borders with paddings, the size or `-`, the minimum, the maximum or `-`, and the two margins,
//!   each of which may be `-`. The margins before and after the used size.
//! - `held`: a size, its minimum, and its maximum or `-`. The size within them.
//! - `fit`: the min-content and the max-content size, and what is available. The size that fits.
//! - `definite`: `auto`, `length` or `percent`, the length or hundredths of a percent, and the containing block's size or `-`. The
//!   block size, or `-`.
//! - `margins`: four margins. The one to which they collapse.
//! - `stack`: whether the container's start and its end join; three children, each with its size, its positive and its negative
//!   margin at its start and at its end, and whether it is collapsed through. Their places, the extent, the positive and the
//!   negative margin at the start and at the end, and whether all are collapsed through.
//! - `#`: a comment, which is its own answer.
//! - What is not such a line, or no call takes, is `not a case`.
#![tactic(auto)]

ghost use Rattle.std.specs.Prelude.{◌≡◌, ◌<◌};

mod margins;
mod modes;
mod numbers;
mod sizes;
mod words;

use margins::{collapsed_margin, stacked_children};
use modes::{flow_rectangle, page_property_named, page_rectangle, sides, upright_direction};
use numbers::{fixed_length, held_length, percent_of, scaled_length};
use sizes::{
    definite_size, fitting_size, held_size, inline_sizes, orthogonal_contribution, orthogonal_size,
};
use std::alloc::Global;
use std::io;
use std::io::{BufRead, BufReader, BufWriter, Write};
use std::marker::Brand;
use std::sync::ledger::{Blank, Ledger};
use wm_units::Steps;
use words::{CaseError, Words};

fn main(rt: HostRuntime) -> io::Result<()> {
    let input = BufReader::new(rt.alloc(), rt.reader())?;
    let mut output = BufWriter::new(rt.alloc(), io::writer(&rt))?;
    counted::<_, _, Brand>(rt.alloc(), input, &mut output, Blank::new(1))?;
    output.flush()
}

// Answers each line, with a counter of its own.
fn counted<R: BufRead + Drop, W: Write, L: Ledger>(
    alloc: Global,
    input: R,
    output: &mut W,
    blank: Blank,
) -> io::Result<()>
    requires name { blank.name ≡ L.name }
    requires parts { blank.parts ≡ L.parts }
    requires some { 0 < blank.parts }
{
    let mut arranged = Steps::<L>::open(blank);
    for line in input.lines(alloc) {
        let line = line?;
        match answer(alloc, line.as_str(), &mut arranged) {
            Ok(answer) => writeln!(output, "{answer}")?,
            Err(CaseError::Malformed) => writeln!(output, "not a case")?,
            Err(CaseError::Memory) => return Err(io::ErrorKind::OutOfMemory.into()),
        }
    }
    Ok(())
}

fn answer<L: Ledger>(
    alloc: Global,
    line: &str,
    arranged: &mut Steps<L>,
) -> Result<String, CaseError> {
    let mut words = Words::new(line);
    match words.word()? {
        "#" => Ok(line.to_string(alloc)?),
        "fixed" => fixed_length(alloc, &mut words),
        "scaled" => scaled_length(alloc, &mut words),
        "percent" => percent_of(alloc, &mut words),
        "length" => held_length(alloc, &mut words),
        "sides" => sides(alloc, &mut words),
        "page" => page_rectangle(alloc, &mut words),
        "flow" => flow_rectangle(alloc, &mut words),
        "direction" => upright_direction(alloc, &mut words),
        "property" => page_property_named(alloc, &mut words),
        "available" => orthogonal_size(alloc, &mut words),
        "contribution" => orthogonal_contribution(alloc, &mut words),
        "equation" => inline_sizes(alloc, &mut words),
        "held" => held_size(alloc, &mut words),
        "fit" => fitting_size(alloc, &mut words),
        "definite" => definite_size(alloc, &mut words),
        "margins" => collapsed_margin(alloc, &mut words),
        "stack" => stacked_children(alloc, &mut words, arranged),
        _ => Err(CaseError::Malformed),
    }
}
