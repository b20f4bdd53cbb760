//! The program `check_bidi` answers for bidi paragraphs, one a line, so that the bidi crates can be compared with
//! others. A line has words: the base level, which is `0`, `1` or `-` where P2 and P3 find it (UAX 9), and then the
//! characters as hexadecimal numbers. The answer is a line with three parts, parted by semicolons: the base level, the
//! levels behind L1 where the paragraph is one line, and the places from left to right of the characters that X9 leaves.
//! It is `outside` where a character is not in the repertoire.
//!
//! A line that begins with another word is a question for a part of the algorithm. It has the base level, two places that
//! say where a line begins and ends, and the characters, each as its class, its level and its code point in hexadecimal, parted
//! by colons; a level that is left out is 0, a character `a`.
//!
//! - `explicit`: the level that P2 and P3 find, the explicit levels, of which `x` is one that X9 removes, and each isolating run
//!   sequence with what stands before and after it and its places.
//! - `sequence`: the levels and classes of a text that is one sequence, once it is resolved.
//! - `resolved`: the resolved levels, by the classes that are given.
//! - `reset`: the levels behind L1. `order`: the places by L2. `line`: the places of the line by L1 and L2.
//! - `text`: the base level, classes and levels that the characters have by themselves, their levels as of the text alone, and
//!   the places of the line, by the paragraph and by the text alone.
//! - `repertoire`: how many characters the repertoire has, how many of them are mirrored, brackets, bidi controls and upright, and
//!   how many differ in one of these or in their class from Unicode's data.
//! - `#`: a comment, which is its own answer.
#![tactic(auto)]

ghost use Rattle.std.specs.Prelude.{◌≡◌, ◌≤◌, IfOk, IfSome, length};

mod characters;
mod questions;

use bidi_explicit::LevelList;
use bidi_order::{BidiParagraph, reset};
use characters::print_repertoire;
use questions::{answer_question, read_question};
use std::alloc::{AllocError, Global};
use std::io;
use std::io::{BufRead, BufReader, BufWriter, Write};
use wm_chars::bidi_class;

type Text = Vec<char>;

fn main(rt: HostRuntime) -> io::Result<()> {
    let input = BufReader::new(rt.alloc(), rt.reader())?;
    let mut output = BufWriter::new(rt.alloc(), io::writer(&rt))?;
    for line in input.lines(rt.alloc()) {
        let line = line?;
        answer_line(rt.alloc(), line.as_str(), &mut output)?;
    }
    output.flush()
}

fn answer_line<W: Write>(alloc: Global, line: &str, output: &mut W) -> io::Result<()> {
    let mut words = line.split_whitespace();
    match words.next() {
        Some("#") => writeln!(output, "{line}"),
        Some("repertoire") => print_repertoire(output),
        Some("0" | "1" | "-") | None => answer(alloc, line, output),
        Some(kind) => answer_question(alloc, kind, &read_question(alloc, words)?, output),
    }
}

fn answer<W: Write>(alloc: Global, line: &str, output: &mut W) -> io::Result<()> {
    let text = text_of(alloc, line)?;
    if !is_in_repertoire(&text) {
        return writeln!(output, "outside");
    }
    let paragraph = BidiParagraph::new(alloc, &text, base_of(line))?;
    let levels = line_levels(alloc, &paragraph)?;
    let order = paragraph.line(alloc, 0, paragraph.classes().len())?;
    print(output, paragraph.base(), &levels, &order)
}

// The levels behind L1, where the paragraph is one line.
fn line_levels(alloc: Global, paragraph: &BidiParagraph) -> Result<LevelList, AllocError>
    ensures { IfOk result (λ levels. length levels.items ≡ length paragraph.now.levels) }
{
    let classes = paragraph.classes();
    let mut levels = Vec::from_slice(alloc, paragraph.levels())?;
    reset(&mut levels, classes, paragraph.base());
    Ok(levels)
}

fn print<W: Write>(output: &mut W, base: u8, levels: &[u8], order: &[usize]) -> io::Result<()> {
    write!(output, "{base};")?;
    for level in levels {
        write!(output, " {level}")?;
    }
    write!(output, ";")?;
    for place in order {
        write!(output, " {place}")?;
    }
    writeln!(output)
}

fn base_of(line: &str) -> Option<u8>
    ensures { IfSome result (λ base. base ≤ 1) }
{
    match line.split_whitespace().next() {
        Some("0") => Some(0),
        Some("1") => Some(1),
        _ => None,
    }
}

// The characters of a line. A word that is no number of a character stands for U+FFFD.
fn text_of(alloc: Global, line: &str) -> Result<Text, AllocError> {
    let mut text = Vec::new(alloc);
    for word in line.split_whitespace().skip(1) {
        let code = u32::from_str_radix(word, 16).unwrap_or(0xFFFD);
        text.push(char::from_u32(code).unwrap_or('\u{FFFD}'))?;
    }
    Ok(text)
}

fn is_in_repertoire(text: &[char]) -> bool {
    for c in text {
        if bidi_class(*c).is_none() {
            return false;
        }
    }
    true
}
