//! An isolating run sequence (UAX 9, BD13 and X10) that is to be resolved.

ghost use Rattle.std.specs.Prelude.{◌≡◌, ◌<◌, ◌≤◌, All, length};

use wm_chars::BidiClass;

/// What an isolating run sequence stands in (UAX 9, X10): its embedding level, and the directions before its first
/// character and behind its last one.
#[derive(Clone, Copy)]
pub(crate) struct Frame {
    pub(crate) level: u8,
    pub(crate) sos: BidiClass,
    pub(crate) eos: BidiClass,
    ghost most: { level ≤ 125 },
}

/// An isolating run sequence in the lists of its paragraph, which have one length: the characters, the classes that were
/// handed in, and those that X1 to X9 leave.
#[derive(Clone, Copy)]
pub(crate) struct Sequence<'a> {
    pub(crate) chars: &'a [char],
    pub(crate) originals: &'a [BidiClass],
    pub(crate) classes: &'a [BidiClass],
    /// The places of the sequence in these lists.
    pub(crate) places: &'a [usize],
    pub(crate) frame: Frame,
    ghost each_original: { length originals.now ≡ length chars.now },
    ghost each_class: { length classes.now ≡ length chars.now },
    ghost within: { All (λ place. place < length chars.now) places.now },
}
