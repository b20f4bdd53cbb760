//! What layout gives: trees of fragments in coordinates of the flow (docs/PROFILE/lines.md).

ghost use Rattle.std.specs.Prelude.{◌≡◌, IfOk};
ghost use Rattle.fragment_types.specs.Fragment.{kind_of, moved_to, piece_of};

use crate::item::BoxName;
use crate::lists::{Fragments, RunUnits};
use crate::unit_kind::UnitKind;
use margin_collapse::Margins;
use std::alloc::{AllocError, Global};
use std::rc::Rc;
use style_types::Baseline;
use wm_modes::{Direction, FlowRect, WritingMode};

/// A block container as a fragment, with its mode and used direction. Lengths are in units of 1/64 px.
#[derive(Clone, Copy, Debug)]
pub struct BoxPart {
    pub mode: WritingMode,
    pub dir: Direction,
    /// The content area in the flow of the containing block, measured from the border box's inline-start and
    /// block-start edges; of an inline-block from its line-left and line-over edges.
    pub content: FlowRect,
    /// The block size that percentages of its children refer to, or none.
    pub definite: Option<i64>,
    /// Its adjoining margins at the block-start and the block-end.
    pub start: Margins,
    pub end: Margins,
    /// Whether it collapses through.
    pub through: bool,
}

/// What a fragment is of. Lengths are in units of 1/64 px.
#[derive(Debug, Drop)]
pub enum FragmentKind {
    /// A block container.
    Box(Rc<BoxPart>),
    /// A line of a paragraph: which one, from 0; the distance from its line-over edge to its baseline; the mode and the
    /// kind of baseline of its paragraph.
    Line {
        index: usize,
        base: i64,
        mode: WritingMode,
        baseline: Baseline,
    },
    /// A piece of an inline box.
    Span,
    /// Units of one text node side by side, of one kind and level, whose logical order goes on unit by unit, from
    /// line-left. `natural` is the sum of the plain advances of a combined run, and none for the others.
    Run {
        form: UnitKind,
        level: u8,
        natural: Option<i64>,
        units: Rc<RunUnits>,
    },
    /// A box that was measured alone: its min-content and max-content contribution.
    Measure {
        min: i64,
        max: i64,
    },
}

/// A fragment. Inside a line `rect.i` and `rect.b` are distances from line-left and line-over, else from the inline-start
/// and block-start edges of the containing block's content area. What is below it is shared by its copies.
#[derive(Debug, Drop)]
pub struct Fragment {
    /// The node and the ordinal of a box, a line or an inline box; the text node of a run, with 0.
    pub name: BoxName,
    pub rect: FlowRect,
    pub kind: FragmentKind,
    pub children: Rc<Fragments>,
}

/// The content of a line, with the greatest extents over and under its baseline.
#[derive(Debug, Drop)]
pub struct LineFragment {
    pub over: i64,
    pub under: i64,
    /// The pieces of the line from line-left.
    pub parts: Fragments,
}

impl Fragment {
    /// A copy of the fragment at another place, which shares its content.
    pub fn moved_to(&self, rect: FlowRect) -> Result<Fragment, AllocError>
        ensures { IfOk result (λ own. piece_of own ≡ moved_to rect (piece_of self.now)) }
    {
        Ok(Fragment {
            name: self.name,
            rect,
            kind: self.kind.share()?,
            children: self.children.clone()?,
        })
    }
}

impl FragmentKind {
    // A copy of the kind of a fragment. The units of a run are shared.
    fn share(&self) -> Result<FragmentKind, AllocError>
        ensures { IfOk result (λ own. kind_of own ≡ kind_of self.now) }
    {
        let kind = match self {
            FragmentKind::Box(part) => FragmentKind::Box(part.clone()?),
            FragmentKind::Line {
                index,
                base,
                mode,
                baseline,
            } => FragmentKind::Line {
                index: *index,
                base: *base,
                mode: *mode,
                baseline: *baseline,
            },
            FragmentKind::Span => FragmentKind::Span,
            FragmentKind::Run {
                form,
                level,
                natural,
                units,
            } => FragmentKind::Run {
                form: *form,
                level: *level,
                natural: *natural,
                units: units.clone()?,
            },
            FragmentKind::Measure { min, max } => FragmentKind::Measure {
                min: *min,
                max: *max,
            },
        };
        Ok(kind)
    }
}
