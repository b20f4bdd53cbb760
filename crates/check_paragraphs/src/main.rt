//! The program `check_paragraphs` answers for parts of paragraphs, one a line, so that what is prepared of a paragraph, where
//! its lines end and how they are placed can be compared with others. It has no tests of its own: its run is that of the
//! public calls of these crates.
//!
//! A question is a line of words. Numbers are decimal, lengths in units of 1/64 px; `-` stands for none; what has a variant
//! is named by it; a list begins with how many it has. The answer is a line in the same form, with fragments and items in
//! brackets.
//!
//! - `advance`: the number of a face, a character in hexadecimal, and whether it is upright. The answer has the advance, in
//!   thousandths of the font size, and the ascent and the descent of the face that is used.
//! - `fill`: the room; the items, each with advance, edges before and after, `yes` where it is a space, and the break
//!   behind it; pairs of places. The answer has the ends of the lines, the min-content and the max-content size, and the
//!   width between the places of each pair.
//! - `line`: the fields of a `LineInput` in order. An item ends with `unit` (node, first, end, form, glyphs), `combined`
//!   (node, first, end, natural, glyphs), `atom` (its two margins, over, under, a fragment) or `break`. Of a fragment stand
//!   how many fragments there are in all, and then each behind those inside it, with its name, rectangle, kind and how many
//!   are right inside. The answer has the extents over and under, and the fragments.
//! - `paragraph`: the base level; styles (mode, direction, orientation, combine, bidi, font size, face), the container's
//!   first; the items, `text` (node, place of its style, bytes in hexadecimal), `open` (node, place of its style, whether it
//!   opens), `close` (node, whether it closes), `atom` (node, ordinal) or `break` (node). The answer has the items, each with its
//!   source and its level apart, and then the lists of levels, classes, base levels and breaks.
//! - `lines`: the block container's node and ordinal, and its inline size; a paragraph as above, whose styles tell besides align,
//!   the length of `vertical-align`, line height (`Normal`, or `Number` or `Length` with its value), and, each for top, right,
//!   bottom and left, margins and paddings (`Auto`, or `Length` or `Percent` with its value) and border widths; the inline-blocks,
//!   each with node and ordinal, the inline and the block size of its border box, the fields of an `Atom` from its extent on,
//!   and its min-content and max-content contribution. The answer has the two sizes of the paragraph, and its lines.
//! - `units`: a style as that of a paragraph, and a text, its bytes in hexadecimal. The answer has each unit with its places,
//!   kind, advance, natural width and break class.
//! - `count`: how far the paragraph is taken, `read`, `prepared` or `lines`; the words of `lines`. The answer has how many items
//!   are read or prepared, or how many lines there are. It is for tools/count-paragraphs.
//! - `#`: a comment, which is its own answer.
//! - A question that no call takes is `outside`, and `too long` where it is of the kind `fill`. What is not such a line is
//!   `not a case`.
//!
//! The files `stdin` and `stdout` hold the worked examples, by values from outside, each under a comment that names it.
#![tactic(auto)]

ghost use Rattle.std.specs.Prelude.{◌≡◌, ◌<◌};

mod advances;
mod bounds;
mod fills;
mod fragments;
mod glyphs;
mod limits;
mod names;
mod placings;
mod preparings;
mod printed;
mod styles;
mod sums;
mod units;
mod wholes;
mod words;

use advances::{advance_case, answer_advance};
use face_api::{Face, Faces, MonoFace, TableFace, WideFace};
use fills::{answer_fill, fill_case};
use placings::{answer_line, line_case};
use preparings::{answer_paragraph, prepare_case};
use std::alloc::Global;
use std::io;
use std::io::{BufRead, BufReader, BufWriter, Write};
use std::marker::Brand;
use std::sync::ledger::{Blank, Ledger};
use units::{answer_units, units_case};
use wholes::{answer_lines, count_case, lines_case};
use wm_units::Steps;
use words::{CaseError, Words};

fn main(rt: HostRuntime) -> io::Result<()> {
    let input = BufReader::new(rt.alloc(), rt.reader())?;
    let mut output = BufWriter::new(rt.alloc(), io::writer(&rt))?;
    counted::<_, _, Brand, Brand>(rt.alloc(), input, &mut output, Blank::new(1), Blank::new(1))?;
    output.flush()
}

// Answers each line, with three faces and counters of its own.
fn counted<R: BufRead + Drop, W: Write, L: Ledger, M: Ledger>(
    alloc: Global,
    input: R,
    output: &mut W,
    first: Blank,
    second: Blank,
) -> io::Result<()>
    requires first_name { first.name ≡ L.name }
    requires first_parts { first.parts ≡ L.parts }
    requires first_some { 0 < first.parts }
    requires second_name { second.name ≡ M.name }
    requires second_parts { second.parts ≡ M.parts }
    requires second_some { 0 < second.parts }
{
    let mut boxes: Vec<Box<dyn Face>> = Vec::new(alloc);
    boxes.push(Box::new(alloc, MonoFace::new())?)?;
    boxes.push(Box::new(alloc, WideFace::new())?)?;
    boxes.push(Box::new(alloc, TableFace::new(alloc)?)?)?;
    let faces = Faces::new(alloc, boxes)?;
    let mut prepared = Steps::<L>::open(first);
    let mut arranged = Steps::<M>::open(second);
    for line in input.lines(alloc) {
        let line = line?;
        answer(
            alloc,
            line.as_str(),
            &faces,
            &mut prepared,
            &mut arranged,
            output,
        )?;
        writeln!(output)?;
    }
    Ok(())
}

fn answer<W: Write, L: Ledger, M: Ledger>(
    alloc: Global,
    line: &str,
    faces: &Faces,
    prepared: &mut Steps<L>,
    arranged: &mut Steps<M>,
    output: &mut W,
) -> io::Result<()> {
    let mut words = Words::new(line);
    match words.word() {
        Ok("#") => write!(output, "{line}"),
        Ok("advance") => match advance_case(&mut words) {
            Ok(case) => answer_advance(case, faces, output),
            Err(error) => print_error(output, error),
        },
        Ok("fill") => match fill_case(alloc, &mut words) {
            Ok(case) => answer_fill(alloc, &case, arranged, output),
            Err(error) => print_error(output, error),
        },
        Ok("line") => match line_case(alloc, &mut words) {
            Ok(case) => answer_line(alloc, case, output),
            Err(error) => print_error(output, error),
        },
        Ok("lines") => match lines_case(alloc, &mut words) {
            Ok(case) => answer_lines(alloc, &case, faces, prepared, arranged, output),
            Err(error) => print_error(output, error),
        },
        Ok("count") => match count_case(alloc, &mut words) {
            Ok(case) => answer_lines(alloc, &case, faces, prepared, arranged, output),
            Err(error) => print_error(output, error),
        },
        Ok("units") => match units_case(alloc, &mut words) {
            Ok(case) => answer_units(alloc, &case, faces, output),
            Err(error) => print_error(output, error),
        },
        Ok("paragraph") => match prepare_case(alloc, &mut words) {
            Ok(paragraph) => answer_paragraph(alloc, &paragraph, faces, prepared, output),
            Err(error) => print_error(output, error),
        },
        _ => print_error(output, CaseError::Malformed),
    }
}

fn print_error<W: Write>(output: &mut W, error: CaseError) -> io::Result<()> {
    match error {
        CaseError::Malformed => write!(output, "not a case"),
        CaseError::Memory => Err(io::ErrorKind::OutOfMemory.into()),
    }
}
