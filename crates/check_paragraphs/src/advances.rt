//! Characters: the advance of the one that is asked, by the face that is used (CSS 2, 15.3, narrowed).

use crate::glyphs::character;
use crate::words::{CaseError, Words};
use face_api::{Face, Faces};
use std::io;
use std::io::Write;

/// A face, a character, and whether the character is upright.
#[derive(Clone, Copy)]
pub(crate) struct AdvanceCase {
    face: u8,
    character: char,
    upright: bool,
}

/// The character of these words, after the number of its face.
pub(crate) fn advance_case(words: &mut Words<'_>) -> Result<AdvanceCase, CaseError> {
    let face = words.number()?;
    let character = character(words.word()?)?;
    let upright = words.flag()?;
    words.end()?;
    Ok(AdvanceCase {
        face,
        character,
        upright,
    })
}

/// Prints the character's advance, and the ascent and the descent of its face.
pub(crate) fn answer_advance<W: Write>(
    case: AdvanceCase,
    faces: &Faces,
    output: &mut W,
) -> io::Result<()> {
    let face = faces.used(case.face);
    let advance = face.advance(case.character, case.upright);
    let metrics = face.metrics();
    write!(output, "{advance} {} {}", metrics.ascent, metrics.descent)
}
