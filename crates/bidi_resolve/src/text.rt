//! The text of a bidi paragraph.

ghost use Rattle.std.specs.Prelude.{◌≡◌, ◌≤◌, length};

use wm_chars::BidiClass;

/// The characters of a bidi paragraph with their classes, and its base level, which is 0 or 1.
#[derive(Clone, Copy)]
pub(crate) struct Text<'a> {
    pub(crate) chars: &'a [char],
    pub(crate) classes: &'a [BidiClass],
    pub(crate) base: u8,
    ghost low: { base ≤ 1 },
    ghost each_class: { length chars.now ≡ length classes.now },
}
