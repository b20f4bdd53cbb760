//! The units of a text, and its combined runs (CSS Writing Modes 4, 9.1).

ghost use Rattle.std.specs.Prelude.{◌≡◌, ◌≤◌, pos, ◌≤ℤ◌, length, IfOk};
ghost use Rattle.std.specs.Str.{chars};
ghost use Rattle.face_api.specs.Living.{used_table};
ghost use Rattle.face_api.specs.Faces.{faces_of};
ghost use Rattle.cluster_units.specs.Laws.{AreInOrder};
ghost use Rattle.cluster_units.specs.Unit.{units_of};

use crate::Units;
use crate::cluster::cluster_at;
use crate::gathering::Gathering;
use crate::plain::plain_units;
use face_api::{Face, Faces};
use std::alloc::{AllocError, Global};
use style_types::Style;
use unicode_segmentation::UnicodeSegmentation;

/// The units of a text (CSS Writing Modes 4, 5.1 and 9.1; UAX 29): its extended grapheme clusters but for the
/// bidi controls, each with its orientation and its advance by the style's used face, and in vertical text
/// with `text-combine-upright` of `all` or `digits` its combined runs. The text has at most 1,048,576 bytes, the font size is
/// from 0 to 65,536.
pub fn units(alloc: Global, text: &str, style: &Style, faces: &Faces) -> Result<Units, AllocError>
    requires bytes { length text.now ≤ 1048576 }
    requires low { pos 0 ≤ℤ style.now.font_size }
    requires high { style.now.font_size ≤ℤ pos 65536 }
    ensures units { IfOk result (λ units. units.items ≡ units_of style.now (used_table (faces_of ⟦<dyn Face as Face>⟧ faces.now) style.now.face) (chars text.now)) }
    ensures order { IfOk result (λ units. AreInOrder 0 (length (chars text.now)) units.items) }
{
    units_by(alloc, text, style, faces.used(style.face))
}

// The units of a text by this face. Each call of a face tells that its table keeps its bounds, on which the lengths
// rest: so one is made, also where no unit asks for an advance.
fn units_by(alloc: Global, text: &str, style: &Style, face: &dyn Face) -> Result<Units, AllocError>
    requires bytes { length text.now ≤ 1048576 }
    requires low { pos 0 ≤ℤ style.now.font_size }
    requires high { style.now.font_size ≤ℤ pos 65536 }
    ensures units { IfOk result (λ units. units.items ≡ units_of style.now (table face.now) (chars text.now)) }
    ensures order { IfOk result (λ units. AreInOrder 0 (length (chars text.now)) units.items) }
{
    let _metrics = face.metrics();
    all_units(alloc, text, style, face)
}

fn all_units(alloc: Global, text: &str, style: &Style, face: &dyn Face) -> Result<Units, AllocError>
    requires bytes { length text.now ≤ 1048576 }
    requires low { pos 0 ≤ℤ style.now.font_size }
    requires high { style.now.font_size ≤ℤ pos 65536 }
    ensures { IfOk result (λ units. units.items ≡ units_of style.now (table face.now) (chars text.now)) }
{
    if let Some(units) = plain_units(alloc, text, style, face)? {
        return Ok(units);
    }
    let mut gathering = Gathering::new(Vec::new(alloc));
    let mut place = 0;
    for piece in text.graphemes(true) {
        let cluster = cluster_at(place, piece);
        gathering.add(cluster, style, face)?;
        place = cluster.end;
    }
    let made = gathering.finish(style)?;
    Ok(made)
}
