//! Texts: the units of the one that is asked (CSS Writing Modes 4, 5.1 and 9.1; UAX 29).

use crate::preparings::text;
use crate::styles::text_style;
use crate::words::{CaseError, Words};
use cluster_units::units;
use face_api::Faces;
use letters::Letters;
use std::alloc::Global;
use std::io;
use std::io::Write;
use style_types::Style;

/// A text in a style.
#[derive(Drop)]
pub(crate) struct UnitsCase {
    style: Style,
    text: Letters,
}

/// The text of these words, after its style.
pub(crate) fn units_case(alloc: Global, words: &mut Words<'_>) -> Result<UnitsCase, CaseError> {
    let style = text_style(words)?;
    let text = text(alloc, words)?;
    words.end()?;
    Ok(UnitsCase { style, text })
}

/// Prints each unit with its places, kind, advance, natural width and break class.
pub(crate) fn answer_units<W: Write>(
    alloc: Global,
    case: &UnitsCase,
    faces: &Faces,
    output: &mut W,
) -> io::Result<()> {
    let size = case.style.font_size;
    if case.text.len() > 1_048_576 || size < 0 || size > 65_536 {
        return write!(output, "outside");
    }
    write!(output, "units")?;
    for unit in &units(alloc, &case.text, &case.style, faces)? {
        write!(output, " ({} {}", unit.first, unit.end)?;
        write!(output, " {:?} {}", unit.kind, unit.advance)?;
        write!(output, " {} {:?})", unit.natural, unit.break_class)?;
    }
    Ok(())
}
