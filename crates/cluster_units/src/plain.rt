//! Text in which each character is a cluster (UAX 29, 3.1.1), as in most scripts without marks.

ghost use Rattle.std.specs.Prelude.{◌≡◌, ◌≤◌, pos, ◌≤ℤ◌, length, IfOk, IfSome};
ghost use Rattle.std.specs.Str.{chars};
ghost use Rattle.cluster_units.specs.Plain as plain;
ghost use Rattle.cluster_units.specs.Plain.{is_plain};
ghost use Rattle.cluster_units.specs.Unit.{units_of};

use crate::Units;
use crate::cluster::Cluster;
use crate::gathering::Gathering;
use face_api::Face;
use std::alloc::{AllocError, Global};
use style_types::Style;

/// Whether a character is a cluster by itself among its like (UAX 29, 3.1.1): one of Latin text, but for the carriage return,
/// or one further on that is neither a mark nor joins others.
pub fn is_plain_character(c: char) -> bool
    ensures { result ≡ is_plain c }
{
    if c < '\u{300}' {
        c != '\r'
    } else if c < '\u{3000}' {
        is_letter(c) || is_sign(c)
    } else {
        is_wide(c)
    }
}

// A letter of Greek, Cyrillic, Hebrew or Arabic.
fn is_letter(c: char) -> bool
    ensures { result ≡ plain.is_letter c }
{
    matches!(
        c,
        '\u{370}'..='\u{482}' | '\u{5D0}'..='\u{5EA}' | '\u{61B}'..='\u{64A}'
    )
}

// An Arabic digit, general punctuation or a bidi control.
fn is_sign(c: char) -> bool
    ensures { result ≡ plain.is_sign c }
{
    matches!(c, '\u{660}'..='\u{66F}' | '\u{200E}'..='\u{206F}')
}

// Ideographic punctuation, kana, Han, a Hangul syllable or a fullwidth form.
fn is_wide(c: char) -> bool
    ensures { result ≡ plain.is_wide c }
{
    matches!(
        c,
        '\u{3000}'..='\u{3029}' | '\u{3030}'..='\u{3098}' | '\u{309B}'..='\u{30FF}' | '\u{4E00}'..='\u{9FFF}' | '\u{AC00}'..='\u{D7A3}' | '\u{FF01}'..='\u{FF9D}'
    )
}

// The units of a text by this face, if it is plain.
pub(crate) fn plain_units(
    alloc: Global,
    text: &str,
    style: &Style,
    face: &dyn Face,
) -> Result<Option<Units>, AllocError>
    requires bytes { length text.now ≤ 1048576 }
    requires low { pos 0 ≤ℤ style.now.font_size }
    requires high { style.now.font_size ≤ℤ pos 65536 }
    ensures { IfOk result (λ made. IfSome made (λ units. units.items ≡ units_of style.now (table face.now) (chars text.now))) }
{
    let mut gathering = Gathering::new(Vec::with_capacity(alloc, text.len())?);
    let mut place = 0;
    for c in text.chars() {
        if !is_plain_character(c) {
            return Ok(None);
        }
        let cluster = Cluster {
            first: place,
            end: place + 1,
            head: c,
        };
        gathering.add(cluster, style, face)?;
        place = cluster.end;
    }
    let units = gathering.finish(style)?;
    Ok(Some(units))
}
