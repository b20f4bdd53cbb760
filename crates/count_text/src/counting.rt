//! A text is taken so far as is asked.

ghost use Rattle.std.specs.Prelude.{◌≡◌, ◌≤◌, length, IfOk};
ghost use Rattle.std.specs.Str.{chars};

use crate::error::CountError;
use crate::measure::Measure;
use bidi_explicit::base_of;
use bidi_order::line_order;
use bidi_resolve::{paragraph_levels, text_classes};
use cluster_units::units;
use face_api::{Face, Faces, MonoFace};
use std::alloc::{AllocError, Global};
use std::str;
use style_types::Style;
use wm_modes::WritingMode;

type Characters = Vec<char>;

/// How many characters the text of these bytes has, which is taken so far.
pub(crate) fn count(alloc: Global, bytes: &[u8], measure: Measure) -> Result<usize, CountError>
    requires { length bytes.now ≤ 1048576 }
    ensures { IfOk result (λ count. count ≡ length (chars bytes.now)) }
{
    let Ok(text) = str::from_utf8(bytes) else {
        return Err(CountError::Encoding);
    };
    let characters = characters_of(alloc, text)?;
    match measure {
        Measure::Read => {}
        Measure::Levels => take_levels(alloc, &characters, false)?,
        Measure::Order => take_levels(alloc, &characters, true)?,
        Measure::Units => take_units(alloc, text, WritingMode::HorizontalTb)?,
        Measure::VerticalUnits => take_units(alloc, text, WritingMode::VerticalRl)?,
    }
    Ok(characters.len())
}

fn characters_of(alloc: Global, text: &str) -> Result<Characters, AllocError>
    ensures { IfOk result (λ characters. characters.items ≡ chars text.now) }
{
    let mut characters = Vec::new(alloc);
    for c in text.chars() {
        characters.push(c)?;
    }
    Ok(characters)
}

// Takes the levels of a text as one paragraph, and the order of one line with all of it.
fn take_levels(alloc: Global, characters: &[char], ordered: bool) -> Result<(), AllocError> {
    let classes = text_classes(alloc, characters)?;
    let base = base_of(None, &classes);
    let levels = paragraph_levels(alloc, characters, &classes, base)?;
    if ordered {
        line_order(alloc, &levels, &classes, base, 0, classes.len())?;
    }
    Ok(())
}

// Takes the units of a text in this mode, by a face whose characters are all as wide.
fn take_units(alloc: Global, text: &str, mode: WritingMode) -> Result<(), AllocError>
    requires { length text.now ≤ 1048576 }
{
    let mut own: Vec<Box<dyn Face>> = Vec::new(alloc);
    own.push(Box::new(alloc, MonoFace::new())?)?;
    let faces = Faces::new(alloc, own)?;
    let style = Style {
        mode,
        ..Style::initial()
    };
    units(alloc, text, &style, &faces)?;
    Ok(())
}
