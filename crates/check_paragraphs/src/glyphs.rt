//! What is seen of units, as a word: code points in hexadecimal, `.` between those of one unit and `,` between units.

use crate::words::{CaseError, Words};
use fragment_types::{Characters, Glyphs, RunUnit};
use std::alloc::Global;
use std::io;
use std::io::Write;

/// The next word as what is seen of units; `-` is none.
pub(crate) fn glyphs(alloc: Global, words: &mut Words<'_>) -> Result<Glyphs, CaseError> {
    let word = words.word()?;
    let mut units = Vec::new(alloc);
    if word != "-" {
        for unit in word.split(',') {
            units.push(characters(alloc, unit)?)?;
        }
    }
    Ok(Glyphs::many(alloc, units)?)
}

fn characters(alloc: Global, unit: &str) -> Result<Characters, CaseError> {
    let mut characters = Vec::new(alloc);
    for code in unit.split('.') {
        characters.push(character(code)?)?;
    }
    Ok(characters)
}

/// The character of this code point in hexadecimal.
pub(crate) fn character(code: &str) -> Result<char, CaseError> {
    match u32::from_str_radix(code, 16) {
        Ok(code) => match char::from_u32(code) {
            Some(c) => Ok(c),
            None => Err(CaseError::Malformed),
        },
        Err(_) => Err(CaseError::Malformed),
    }
}

/// Prints what is seen of units; `-` is none.
pub(crate) fn print_glyphs<W: Write>(output: &mut W, glyphs: &Glyphs) -> io::Result<()> {
    if glyphs.is_empty() {
        return write!(output, " -");
    }
    let mut between = ' ';
    for place in 0..glyphs.len() {
        write!(output, "{between}")?;
        print_characters(output, glyphs.unit(place))?;
        between = ',';
    }
    Ok(())
}

/// Prints what is seen of a unit of a run; `-` is none.
pub(crate) fn print_unit_glyphs<W: Write>(output: &mut W, unit: &RunUnit) -> io::Result<()> {
    if unit.glyph_count() == 0 {
        return write!(output, " -");
    }
    let mut between = ' ';
    for place in 0..unit.glyph_count() {
        write!(output, "{between}")?;
        print_characters(output, unit.glyph(place))?;
        between = ',';
    }
    Ok(())
}

fn print_characters<W: Write>(output: &mut W, characters: &[char]) -> io::Result<()> {
    let mut between = "";
    for c in characters {
        let code = *c as u32;
        write!(output, "{between}{code:x}")?;
        between = ".";
    }
    Ok(())
}
