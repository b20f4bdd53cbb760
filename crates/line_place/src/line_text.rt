//! A line that is one run of text outside all inline boxes, from left to right (CSS 2, 9.4.2 and 10.8).

ghost use Rattle.std.specs.Prelude.{◌≡◌, ◌+◌, ◌*◌, ◌≤◌, ◌^◌, ◌-ℤ◌, [], IfOk, List, unsigned_abs};
ghost use Rattle.fragment_types.specs.Fragment.{Pieces, before, pieces_of};
ghost use Rattle.line_place.specs.Line.{Item, line_in};
ghost use Rattle.line_place.specs.LineText.{IsLineText, text_of, text_piece};
ghost use Rattle.line_place.specs.Placing as rule;
ghost use Rattle.line_place.specs.Reach.{AreInLimit, extents_reach, line_reach};

use crate::empty::NoFragments;
use crate::line::LineFrame;
use crate::measure::offset;
use crate::walk::{LineStage, unnumbered};
use bidi_order::laws::level_zero_stays;
use fragment_types::{Fragment, FragmentKind, LineFragment, RunUnits, UnitKind};
use std::alloc::{AllocError, Global};
use std::rc::Rc;

/// A line as one run of text: units of one text node and one form, which stand outside all inline boxes at level 0. The Spaces at
/// its end hang, and are left out. Lengths are in units of 1/64 px.
#[derive(Debug, Drop)]
pub struct LineText {
    pub node: u32,
    pub form: UnitKind,
    /// The extent of the units before those Spaces together.
    pub extent: i64,
    /// These units, one at least, of which the last is no Space.
    pub units: RunUnits,
}

/// Places a line that has this text alone: its only run as a fragment. It reaches as far over and under its baseline as the
/// strut does.
pub(crate) fn place_text(
    alloc: Global,
    frame: &LineFrame,
    text: LineText,
    empty: &NoFragments,
) -> Result<LineFragment, AllocError>
    requires base { frame.now.base ≡ 0 }
    requires boxes { frame.now.boxes.now ≡ [] }
    requires reach { unsigned_abs frame.now.available + unsigned_abs text.extent + extents_reach frame.now.strut ≤ 2 ^ 60 }
    ensures over { IfOk result (λ made. (items : List Item) → IsLineText (text_of text) items → made.over ≡ rule.line_over (line_in frame.now items)) }
    ensures under { IfOk result (λ made. (items : List Item) → IsLineText (text_of text) items → made.under ≡ rule.line_under (line_in frame.now items)) }
    ensures parts { IfOk result (λ made. (items : List Item) → IsLineText (text_of text) items → pieces_of made.parts.items ≡ rule.parts (line_in frame.now items)) }
    ensures near { IfOk result (λ made. (unsigned_abs made.over ≤ 2 ^ 60) × (unsigned_abs made.under ≤ 2 ^ 60)) }
    ensures reach { IfOk result (λ made. (items : List Item) → IsLineText (text_of text) items → AreInLimit (4 * line_reach (line_in frame.now items)) (pieces_of made.parts.items)) }
{
    level_zero_stays();
    let (over, under) = (frame.strut.over, frame.strut.under);
    let stage = LineStage { frame, over, empty };
    let fragment = stage.text_alone(alloc, text)?;
    let mut parts = Vec::with_capacity(alloc, 1)?;
    parts.push(fragment)?;
    Ok(LineFragment { over, under, parts })
}

impl LineStage<'_> {
    // The run of a line that has this text alone, where the line's base level is 0.
    fn text_alone(&self, alloc: Global, text: LineText) -> Result<Fragment, AllocError>
        requires reach { unsigned_abs self.now.frame.now.available + unsigned_abs text.extent ≤ 2 ^ 60 }
        ensures { IfOk result (λ made. (next : Pieces) → before made next ≡ text_piece self.now.frame.now.strut self.now.over (rule.offset self.now.frame.now.align 0 (self.now.frame.now.available -ℤ text.extent)) (text_of text) next) }
    {
        let rest = self.frame.available - text.extent;
        let left = offset(self.frame.align, 0, rest);
        let rect = self.text_rect(&self.frame.strut, left, text.extent);
        let kind = FragmentKind::Run {
            form: text.form,
            level: 0,
            natural: None,
            units: Rc::new(alloc, text.units)?,
        };
        let made = self.without_inner(unnumbered(text.node), rect, kind)?;
        Ok(made)
    }
}
