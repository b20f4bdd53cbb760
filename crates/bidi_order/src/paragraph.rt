//! A bidi paragraph that is resolved once for all its lines (UAX 9, P2 to I2, then L1 and L2 line by line).

ghost use Rattle.bidi_order.specs.Line.{line_order, line_places};
ghost use Rattle.bidi_order.specs.Paragraph.{IsWhole, Resolved, resolved_text};
ghost use Rattle.bidi_order.specs.Line.{text_line_order};
ghost use Rattle.bidi_resolve.specs.Paragraph.{IsResolvedLevel, classes_of};
ghost use Rattle.std.specs.Prelude.{◌≡◌, ◌≤◌, All, IfOk, IfSome, IsPermutation, length};

use crate::line::line_order;
use crate::places::Order;
use bidi_explicit::{ClassList, LevelList, base_of};
use bidi_resolve::{paragraph_levels, text_classes};
use std::alloc::{AllocError, Global};
use std::marker::Model;
use wm_chars::BidiClass;

/// A text that is one bidi paragraph, with the resolved levels of its characters: what all its lines need. A contract
/// sees the base level, the levels and the classes.
#[derive(Drop)]
pub struct BidiParagraph {
    base: u8,
    levels: LevelList,
    classes: ClassList,
}

impl Model for BidiParagraph {
    ghost use Rattle.bidi_order.specs.Paragraph.{IsWhole, Resolved};

    ghost Value = { Resolved };

    ghost view = { λ p. record { base = p.base; levels = p.levels.items; classes = p.classes.items } };

    ghost invariant = { λ p. IsWhole p.base p.levels.items p.classes.items };
}

impl BidiParagraph {
    /// The paragraph of a text by all rules of UAX 9 from P2 to I2. The base level is 0 or 1, or the one that P2 and P3
    /// give. What isn't in the repertoire counts as ON.
    #[tactic(auto, unfolding(bidi_resolve::specs::Paragraph::text_levels))]
    pub fn new(alloc: Global, chars: &[char], base: Option<u8>) -> Result<BidiParagraph, AllocError>
        requires { IfSome base (λ base. base ≤ 1) }
        ensures resolved { IfOk result (λ paragraph. paragraph ≡ resolved_text chars.now base) }
        ensures length { IfOk result (λ paragraph. length paragraph.levels ≡ length chars.now) }
    {
        let classes = text_classes(alloc, chars)?;
        let base = base_of(base, &classes);
        let levels = paragraph_levels(alloc, chars, &classes, base)?;
        Ok(BidiParagraph {
            base,
            levels,
            classes,
        })
    }

    /// The base level, 0 or 1.
    pub fn base(&self) -> u8
        ensures is { result ≡ self.now.base }
        ensures low { result ≤ 1 }
    {
        self.base
    }

    /// The resolved levels, one for each character.
    pub fn levels(&self) -> &[u8]
        ensures are { result.now ≡ self.now.levels }
        ensures between { All (IsResolvedLevel self.now.base) self.now.levels }
    {
        &self.levels
    }

    /// The classes that the characters had before any rule.
    pub fn classes(&self) -> &[BidiClass]
        ensures are { result.now ≡ self.now.classes }
        ensures length { length self.now.levels ≡ length self.now.classes }
    {
        &self.classes
    }

    /// The order of one line (L1 and L2): the places of its characters in the text, from left to right. The line has the
    /// places from `start` up to `stop` but those of what X9 removes.
    pub fn line(&self, alloc: Global, start: usize, stop: usize) -> Result<Order, AllocError>
        requires start { start ≤ stop }
        requires stop { stop ≤ length self.now.classes }
        ensures order { IfOk result (λ places. places.items ≡ line_order self.now.base self.now.levels self.now.classes start stop) }
        ensures rearranged { IfOk result (λ places. IsPermutation (line_places self.now.classes start stop) places.items) }
    {
        line_order(alloc, &self.levels, &self.classes, self.base, start, stop)
    }
}

/// The order of one line of a text that is one bidi paragraph, by all rules of UAX 9 from P2 to L2. Where a text has many
/// lines, one `BidiParagraph` does the same for all of them.
#[tactic(auto, unfolding(crate::specs::Line::text_line_order))]
pub fn text_line_order(
    alloc: Global,
    chars: &[char],
    base: Option<u8>,
    start: usize,
    stop: usize,
) -> Result<Order, AllocError>
    requires base { IfSome base (λ base. base ≤ 1) }
    requires start { start ≤ stop }
    requires stop { stop ≤ length chars.now }
    ensures order { IfOk result (λ places. places.items ≡ text_line_order chars.now base start stop) }
    ensures rearranged { IfOk result (λ places. IsPermutation (line_places (classes_of chars.now) start stop) places.items) }
{
    let order = BidiParagraph::new(alloc, chars, base)?.line(alloc, start, stop)?;
    Ok(order)
}
