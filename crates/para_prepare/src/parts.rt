//! The content of a paragraph once its texts are cut: ends of inline boxes, bidi controls, items.

ghost use Rattle.std.specs.Prelude.{◌≡◌};
ghost use Rattle.para_prepare.specs.Parts as parts;

use crate::bidi_text::Around;
use bumpalo::Bump;
use cluster_units::Unit;
use fragment_types::{BoxName, Glyphs};
use wm_chars::{BidiClass, bidi_class};

/// Kept characters of a paragraph that stand side by side: places in the list of all of them.
#[derive(Clone, Copy)]
pub(crate) struct Span {
    pub(crate) from: usize,
    pub(crate) to: usize,
}

/// A part of a paragraph's content. `source` is the place of the paragraph's item that it comes from.
#[derive(Drop)]
pub(crate) enum Part {
    /// An inline box begins.
    Opens(Around),
    /// An inline box ends.
    Closes,
    /// A bidi control of a text.
    Control {
        char: char,
        class: BidiClass,
    },
    /// A unit of a text node.
    Unit {
        source: u32,
        node: u32,
        upright: bool,
        unit: Unit,
        letters: Span,
    },
    /// A combined run of a text node, with the units inside it in visual order.
    Combined {
        source: u32,
        node: u32,
        unit: Unit,
        letters: Span,
        inside: Glyphs,
    },
    /// An inline-block.
    Atom {
        source: u32,
        name: BoxName,
    },
    /// A `br`.
    Break {
        source: u32,
        node: u32,
    },
}

/// Parts in scratch memory.
pub(crate) type Parts<'a> = Vec<Part, &'a Bump>;

/// The class of a character in a text that is set upright, where each is strong from left to right, or not. It is asked for each
/// character of most texts, so it stands where it is called.
#[inline(always)]
pub(crate) fn class_in(upright: bool, c: char) -> BidiClass
    ensures { result ≡ parts.class_in upright c }
{
    if upright {
        return BidiClass::L;
    }
    bidi_class(c).unwrap_or(BidiClass::ON)
}
