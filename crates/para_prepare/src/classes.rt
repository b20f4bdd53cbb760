//! The classes by which L1 takes the items of a line (UAX 9, L1).

ghost use Rattle.std.specs.Prelude.{◌≡◌, ◌++◌, [], ◌∷◌, length, map, All, IfOk, OnOk};
ghost use Rattle.para_prepare.specs.Glyph as glyphs;
ghost use Rattle.para_prepare.specs.Glyph.{class_of};
ghost use Rattle.para_prepare.specs.Parts.{raws};
ghost use Rattle.para_prepare.specs.Views.{IsPart, part_of, parts_of};

use crate::items::last_letter;
use crate::letter::Letter;
use crate::parts::{Part, class_in};
use bidi_explicit::ClassList;
use std::alloc::{AllocError, Global};
use wm_chars::BidiClass;

/// The classes of the items of these parts.
pub(crate) fn classes(
    alloc: Global,
    letters: &[Letter],
    parts: &[Part],
) -> Result<ClassList, AllocError>
    requires { All (IsPart (length letters.now)) parts.now }
    ensures { IfOk result (λ classes. classes.items ≡ map class_of (raws (parts_of letters.now parts.now))) }
{
    let mut classes = Vec::with_capacity(alloc, parts.len())?;
    for part in parts {
        add_class(&mut classes, letters, part)?;
    }
    Ok(classes)
}

// Adds the class of an item: that of a unit's last character. What is no item has none.
fn add_class(classes: &mut ClassList, letters: &[Letter], part: &Part) -> Result<(), AllocError>
    requires { IsPart (length letters.now) part.now }
    ensures { OnOk result (classes.new.items ≡ classes.old.items ++ map class_of (raws (part_of letters.now part.now ∷ []))) }
{
    match part {
        Part::Opens(_) | Part::Closes | Part::Control { .. } => {}
        Part::Unit {
            upright,
            letters: span,
            ..
        } => classes.push(last_class(*upright, &letters[span.from..span.to]))?,
        Part::Combined { .. } => classes.push(BidiClass::L)?,
        Part::Atom { .. } => classes.push(BidiClass::ON)?,
        Part::Break { .. } => classes.push(BidiClass::B)?,
    }
    Ok(())
}

/// The class of the last of a unit's characters.
pub(crate) fn last_class(upright: bool, letters: &[Letter]) -> BidiClass
    ensures { result ≡ glyphs.last_class upright letters.now }
{
    match last_letter(letters) {
        Some(letter) => class_in(upright, letter.char),
        None => class_in(upright, '\0'),
    }
}
