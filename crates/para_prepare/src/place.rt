//! Where the kept characters of an item of a paragraph stand.

ghost use Rattle.std.specs.Prelude.{◌≤◌, length, All, encode_utf8_all};
ghost use Rattle.para_prepare.specs.Flat.{Rises, Rises-prop};
ghost use Rattle.para_prepare.specs.Kept.{chars_of};
ghost use Rattle.para_prepare.specs.Facts.{all_placed-prop};
ghost use Rattle.para_prepare.specs.Views.{IsPlaced, letters_at};

use crate::letter::Letter;
use crate::parts::Span;

/// The place of an item in its paragraph, and where its kept characters stand among all of these. They have at most 1,048,576
/// bytes, and stand in the order of their text.
#[derive(Clone, Copy)]
pub(crate) struct Place<'b> {
    pub(crate) source: u32,
    pub(crate) letters: &'b [Letter],
    pub(crate) span: Span,

    ghost order: { span.from ≤ span.to },
    ghost within: { span.to ≤ length letters.now },
    ghost bytes: { length (encode_utf8_all (chars_of (letters_at letters.now span))) ≤ 1048576 },
    ghost rises: { Rises 0 (letters_at letters.now span) } by { Rises-prop 0 (letters_at letters.now span) },
    ghost placed: { All IsPlaced letters.now } by { all_placed-prop letters.now },
}
