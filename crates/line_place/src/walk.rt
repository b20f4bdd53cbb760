//! The walk along a row of marks, which makes the fragments of a line (CSS 2, 9.4.2).

ghost use Rattle.std.specs.Prelude.{◌≡◌, ◌+◌, ◌<◌, ◌≤◌, ◌^◌, ◌++◌, ◌+ℤ◌, ◌-ℤ◌, [], ◌∷◌, List, IfOk, IfSome, OnOk, length, map, reverse, unsigned_abs};
ghost use Rattle.fragment_types.specs.Fragment.{Pieces, before, kind_of, none, piece, piece_of, pieces_of, run as run_kind, span as span_kind};
ghost use Rattle.fragment_types.specs.declared.fragment.Fragment.{out-Fragment};
ghost use Rattle.line_place.specs.Leaves.{nth_leaf};
ghost use Rattle.line_place.specs.Line.{line_in};
ghost use Rattle.line_place.specs.Marks.{Mark as SeenMark, box_at, inside_of, mark_of};
ghost use Rattle.line_place.specs.Placing as rule;
ghost use Rattle.line_place.specs.Reach.{AreLineMarks, AreReached, CanStand, IsBefore, IsInBox, IsOfBox, box_reach, extents_reach, leaf_reach, mark_reach, open_behind, total};
ghost use Rattle.line_place.specs.declared.walk.Open.{Open};
ghost use Rattle.line_place.specs.Walk.{AreOpen, followed, followed_if, whole};

use crate::empty::NoFragments;
use crate::leaves::LeafSlice;
use crate::line::{Extents, LineBox, LineContent, LineFrame};
use crate::marks::Mark;
use crate::measure::{extent_of, left, left_margin, right, right_margin};
use crate::source::LineSource;
use fragment_types::{BoxName, Fragment, FragmentKind, Fragments, RunUnits, UnitKind};
use std::alloc::{AllocError, Global};
use std::mem;
use std::rc::Rc;
use wm_modes::FlowRect;

/// An inline box whose fragment has begun, by its place among the line's boxes: where the fragment begins, and what stands
/// before it in the box round it.
#[derive(Drop)]
pub(crate) struct Open {
    pub(crate) place: usize,
    pub(crate) left: i64,
    pub(crate) before: Fragments,
}

/// How far the walk has come along the line, the boxes that are open there, and what stands in the innermost one.
#[derive(Drop)]
pub(crate) struct Walk {
    pub(crate) at: i64,
    pub(crate) opened: Vec<Open>,
    pub(crate) parts: Fragments,
}

/// What the walk along a line works in: the line's frame, how far the line reaches over its baseline, and the list that the
/// fragments with none inside them share.
#[derive(Drop)]
pub(crate) struct LineStage<'a> {
    pub(crate) frame: &'a LineFrame<'a>,
    pub(crate) over: i64,
    pub(crate) empty: &'a NoFragments,
    ghost boxes: { AreReached frame.now.boxes.now },
    ghost strut: { extents_reach frame.now.strut ≤ 2 ^ 60 },
    ghost near: { unsigned_abs over ≤ 2 ^ 61 },
}

// The text node of a run, its form, and its natural width where it is combined.
#[derive(Clone, Copy)]
struct TextName {
    node: u32,
    form: UnitKind,
    natural: Option<i64>,
}

// Where an atom stands in its margin box: its margins at line-left and line-over, and how far its margin box reaches over the
// baseline.
#[derive(Clone, Copy)]
struct AtomMargins {
    left: i64,
    over: i64,
    baseline: i64,
}

impl<'a> LineStage<'a> {
    /// Text with these extents.
    pub(crate) fn text_rect(&self, extents: &Extents, left: i64, extent: i64) -> FlowRect
        requires extents { extents_reach extents.now ≤ 2 ^ 60 }
        ensures { result ≡ rule.text_rect extents.now self.now.over left extent }
    {
        let raised = self.over - extents.raised;
        FlowRect {
            i: left,
            b: raised - extents.ascent,
            inline: extent,
            block: extents.ascent + extents.descent,
        }
    }

    // A fragment of an inline box: its text with the borders and paddings over and under it.
    fn box_rect(&self, inline_box: &LineBox, left: i64, right: i64) -> FlowRect
        requires reach { box_reach inline_box.now ≤ 2 ^ 60 }
        requires left { unsigned_abs left ≤ 2 ^ 61 }
        requires right { unsigned_abs right ≤ 2 ^ 61 }
        ensures { result ≡ rule.box_rect inline_box.now self.now.over left right }
    {
        let text = self.text_rect(&inline_box.extents, left, right - left);
        let with_over = inline_box.over + text.block;
        FlowRect {
            b: text.b - inline_box.over,
            block: with_over + inline_box.under,
            ..text
        }
    }

    fn extents_in(&self, inside: Option<usize>) -> &Extents
        requires { IsBefore (length self.now.frame.now.boxes.now) inside }
        ensures is { result.now ≡ rule.extents_in (line_in self.now.frame.now []) inside }
        ensures near { extents_reach result.now ≤ 2 ^ 60 }
    {
        match inside {
            None => &self.frame.strut,
            Some(place) => &self.box_at(place).extents,
        }
    }

    // The box at this place of the line.
    fn box_at(&self, place: usize) -> &'a LineBox
        requires { place < length self.now.frame.now.boxes.now }
        ensures is { result.now ≡ box_at self.now.frame.now.boxes.now place }
        ensures near { box_reach result.now ≤ 2 ^ 60 }
    {
        &self.frame.boxes[place]
    }

    // Units of text side by side, from `left` on, which have this extent.
    fn text<S: LineSource>(
        &self,
        alloc: Global,
        left: i64,
        run: &LeafSlice<S>,
        extent: i64,
        named: &TextName,
    ) -> Result<Fragment, AllocError>
        requires inside { IsBefore (length self.now.frame.now.boxes.now) (inside_of run.now) }
        requires extent { extent ≡ rule.extent_of run.now }
        ensures { IfOk result (λ made. (next : Pieces) → before made next ≡ rule.text_piece (line_in self.now.frame.now []) self.now.over left named.now.node named.now.form named.now.natural run.now next) }
    {
        let (level, inside) = (run.first_level(), run.first_inside());
        let units = run_units(alloc, run)?;
        let kind = run_kind(alloc, named, level, units)?;
        let extents = self.extents_in(inside);
        let rect = self.text_rect(extents, left, extent);
        let made = self.without_inner(unnumbered(named.node), rect, kind)?;
        Ok(made)
    }

    /// A fragment with none inside it.
    pub(crate) fn without_inner(
        &self,
        name: BoxName,
        rect: FlowRect,
        kind: FragmentKind,
    ) -> Result<Fragment, AllocError>
        ensures { IfOk result (λ made. (next : Pieces) → before made next ≡ piece name rect (kind_of kind) none next) }
    {
        Ok(Fragment {
            name,
            rect,
            kind,
            children: self.empty.share()?,
        })
    }

    // An atom that is laid out, with its margins from `left` on.
    fn atom(
        &self,
        left: i64,
        fragment: &Fragment,
        margins: &AtomMargins,
    ) -> Result<Fragment, AllocError>
        requires left { unsigned_abs left ≤ 2 ^ 61 }
        requires margins { unsigned_abs margins.now.left + unsigned_abs margins.now.over + unsigned_abs margins.now.baseline ≤ 2 ^ 60 }
        requires size { unsigned_abs (out-Fragment fragment.now).rect.inline + unsigned_abs (out-Fragment fragment.now).rect.block ≤ 2 ^ 60 }
        ensures { IfOk result (λ made. (next : Pieces) → before made next ≡ rule.atom_at (left +ℤ margins.now.left) (self.now.over -ℤ margins.now.baseline +ℤ margins.now.over) (piece_of fragment.now) next) }
    {
        let made = fragment.moved_to(FlowRect {
            i: left + margins.left,
            b: self.over - margins.baseline + margins.over,
            ..fragment.rect
        })?;
        Ok(made)
    }

    // What a run of leaves with this extent shows, from `left` on.
    fn run_fragment<S: LineSource>(
        &self,
        alloc: Global,
        left: i64,
        run: &LeafSlice<S>,
        extent: i64,
    ) -> Result<Option<Fragment>, AllocError>
        requires inside { IsBefore (length self.now.frame.now.boxes.now) (inside_of run.now) }
        requires run { total leaf_reach run.now ≤ 2 ^ 60 }
        requires extent { extent ≡ rule.extent_of run.now }
        requires left { unsigned_abs left ≤ 2 ^ 61 }
        ensures { IfOk result (λ made. (next : Pieces) → followed_if made next ≡ rule.run_piece (line_in self.now.frame.now []) self.now.over left run.now next) }
    {
        match run.first_what() {
            Some(LineContent::Unit { node, form, .. }) => {
                let named = TextName {
                    node,
                    form,
                    natural: None,
                };
                let made = self.text(alloc, left, run, extent, &named)?;
                Ok(Some(made))
            }
            Some(LineContent::Combined { node, natural, .. }) => {
                let named = TextName {
                    node,
                    form: UnitKind::Combined,
                    natural: Some(natural),
                };
                let made = self.text(alloc, left, run, extent, &named)?;
                Ok(Some(made))
            }
            Some(
                LineContent::Atom {
                    fragment,
                    left_margin,
                    over_margin,
                    over: baseline,
                    under: _,
                },
            ) => {
                let margins = AtomMargins {
                    left: left_margin,
                    over: over_margin,
                    baseline,
                };
                let made = self.atom(left, fragment, &margins)?;
                Ok(Some(made))
            }
            Some(LineContent::Break) | None => Ok(None),
        }
    }

    // What stands in the box round an inline box once the fragment with these parts has ended.
    #[tactic(auto, using(crate::proofs::Fragments::followed_push))]
    fn close_box(
        &self,
        alloc: Global,
        right: i64,
        begun: Open,
        parts: Fragments,
    ) -> Result<Fragments, AllocError>
        requires place { begun.place < length self.now.frame.now.boxes.now }
        requires left { unsigned_abs begun.left ≤ 2 ^ 61 }
        requires right { unsigned_abs right ≤ 2 ^ 61 }
        ensures { IfOk result (λ made. (next : Pieces) → followed made.items next ≡ followed begun.before.items
            (piece (rule.unnumbered (box_at self.now.frame.now.boxes.now begun.place).node) (rule.box_rect (box_at self.now.frame.now.boxes.now begun.place) self.now.over begun.left right) span_kind (pieces_of parts.items) next)) }
    {
        let Open {
            place,
            left,
            before,
        } = begun;
        let inline_box = self.box_at(place);
        let rect = self.box_rect(inline_box, left, right);
        let fragment = span(alloc, inline_box.node, rect, parts)?;
        let mut made = before;
        made.push(fragment)?;
        Ok(made)
    }
}

/// The name of what stands in a line, by its node.
pub(crate) fn unnumbered(node: u32) -> BoxName
    ensures { result ≡ rule.unnumbered node }
{
    BoxName { node, ordinal: 0 }
}

// The units of a run.
fn run_units<S: LineSource>(alloc: Global, run: &LeafSlice<S>) -> Result<RunUnits, AllocError>
    ensures { IfOk result (λ made. made.items ≡ map rule.unit_of run.now) }
{
    let mut units = Vec::with_capacity(alloc, run.len())?;
    for k in 0..run.len() {
        units.push_reserved(run.unit_at(alloc, k)?);
    }
    Ok(units)
}

// A fragment of an inline box with these in it.
fn span(alloc: Global, node: u32, rect: FlowRect, parts: Fragments) -> Result<Fragment, AllocError>
    ensures { IfOk result (λ made. (next : Pieces) → before made next ≡ piece (rule.unnumbered node) rect span_kind (pieces_of parts.items) next) }
{
    Ok(Fragment {
        name: unnumbered(node),
        rect,
        kind: FragmentKind::Span,
        children: Rc::new(alloc, parts)?,
    })
}

fn run_kind(
    alloc: Global,
    named: &TextName,
    level: u8,
    units: RunUnits,
) -> Result<FragmentKind, AllocError>
    ensures { IfOk result (λ made. kind_of made ≡ run_kind named.now.form level named.now.natural units.items) }
{
    Ok(FragmentKind::Run {
        form: named.form,
        level,
        natural: named.natural,
        units: Rc::new(alloc, units)?,
    })
}

/// The fragments that this row of marks makes, from `at` on.
pub(crate) fn walked<S: LineSource>(
    alloc: Global,
    stage: &LineStage,
    at: i64,
    marks: &[Mark<S>],
) -> Result<Fragments, AllocError>
    requires marks { AreLineMarks (length stage.now.frame.now.boxes.now) (map mark_of marks.now) }
    requires at { unsigned_abs at ≤ 2 ^ 60 }
    requires reach { total (mark_reach stage.now.frame.now.boxes.now) (map mark_of marks.now) ≤ 2 ^ 60 }
    ensures { IfOk result (λ parts. pieces_of parts.items ≡ rule.outermost (rule.rows (line_in stage.now.frame.now []) stage.now.over at (map mark_of marks.now))) }
{
    let mut walk = Walk {
        at,
        opened: Vec::new(alloc),
        parts: room_for(alloc, stage.frame.boxes, marks)?,
    };
    for mark in marks {
        walk.step(alloc, stage, mark)?;
    }
    let Walk { parts, .. } = walk;
    Ok(parts)
}

// Room for the outermost fragments of a line: as many as there are marks, where none of these is of a box.
fn room_for<S: LineSource>(
    alloc: Global,
    boxes: &[LineBox],
    marks: &[Mark<S>],
) -> Result<Fragments, AllocError>
    ensures { IfOk result (λ parts. parts.items ≡ []) }
{
    let count = if boxes.is_empty() { marks.len() } else { 1 };
    Vec::with_capacity(alloc, count)
}

impl Walk {
    // One mark more.
    fn step<S: LineSource>(
        &mut self,
        alloc: Global,
        stage: &LineStage,
        mark: &Mark<S>,
    ) -> Result<(), AllocError>
        requires of_box { IsOfBox (length stage.now.frame.now.boxes.now) (mark_of mark.now) }
        requires in_box { IsInBox (length stage.now.frame.now.boxes.now) (mark_of mark.now) }
        requires stands { CanStand (length self.old.opened.items) (mark_of mark.now) }
        requires opened { AreOpen (length stage.now.frame.now.boxes.now) self.old.opened.items }
        requires mark { mark_reach stage.now.frame.now.boxes.now (mark_of mark.now) ≤ 2 ^ 60 }
        requires at { unsigned_abs self.old.at + mark_reach stage.now.frame.now.boxes.now (mark_of mark.now) ≤ 2 ^ 61 }
        ensures at { OnOk result (self.new.at ≡ self.old.at +ℤ rule.advance stage.now.frame.now.boxes.now (mark_of mark.now)) }
        ensures opened { OnOk result (AreOpen (length stage.now.frame.now.boxes.now) self.new.opened.items) }
        ensures count { OnOk result (length self.new.opened.items ≡ open_behind (length self.old.opened.items) (mark_of mark.now)) }
        ensures whole { OnOk result ((marks : List SeenMark) → whole (line_in stage.now.frame.now []) stage.now.over self.new marks ≡ whole (line_in stage.now.frame.now []) stage.now.over self.old (mark_of mark.now ∷ marks)) }
    {
        match mark {
            Mark::Begins { place, edge } => {
                self.begin(alloc, stage.box_at(*place), *place, *edge)?;
            }
            Mark::Ends { place, edge } => {
                self.end(alloc, stage, *place, *edge)?;
            }
            Mark::Shows(run) => {
                self.show(alloc, stage, run)?;
            }
        }
        Ok(())
    }

    // A fragment of the box begins. Most have one part.
    fn begin(
        &mut self,
        alloc: Global,
        inline_box: &LineBox,
        place: usize,
        edge: bool,
    ) -> Result<(), AllocError>
        requires at { unsigned_abs self.old.at ≤ 2 ^ 61 }
        requires margin { unsigned_abs (rule.left_margin inline_box.now edge) ≤ 2 ^ 60 }
        requires left { unsigned_abs (rule.left inline_box.now edge) ≤ 2 ^ 60 }
        ensures at { OnOk result (self.new.at ≡ self.old.at +ℤ (rule.left_margin inline_box.now edge +ℤ rule.left inline_box.now edge)) }
        ensures opened { OnOk result (self.new.opened.items ≡ self.old.opened.items ++ (record { place = place; left = self.old.at +ℤ rule.left_margin inline_box.now edge; before = self.old.parts }) ∷ []) }
        ensures parts { OnOk result (self.new.parts.items ≡ []) }
    {
        let margin = left_margin(inline_box, edge);
        let advance = margin + left(inline_box, edge);
        let parts = Vec::with_capacity(alloc, 1)?;
        let before = mem::replace(&mut self.parts, parts);
        self.opened.push(Open {
            place,
            left: self.at + margin,
            before,
        })?;
        self.at += advance;
        Ok(())
    }

    // The innermost fragment ends, with the edges of the box at this place.
    fn end(
        &mut self,
        alloc: Global,
        stage: &LineStage,
        place: usize,
        edge: bool,
    ) -> Result<(), AllocError>
        requires place { place < length stage.now.frame.now.boxes.now }
        requires opened { AreOpen (length stage.now.frame.now.boxes.now) self.old.opened.items }
        requires at { unsigned_abs self.old.at + unsigned_abs (rule.right (box_at stage.now.frame.now.boxes.now place) edge) + unsigned_abs (rule.right_margin (box_at stage.now.frame.now.boxes.now place) edge) ≤ 2 ^ 61 }
        ensures at { OnOk result (self.new.at ≡ self.old.at +ℤ (rule.right (box_at stage.now.frame.now.boxes.now place) edge +ℤ rule.right_margin (box_at stage.now.frame.now.boxes.now place) edge)) }
        ensures closed { OnOk result ((os : List Open) (o : Open) → self.old.opened.items ≡ os ++ o ∷ []
            → (self.new.opened.items ≡ os) × ((next : Pieces) → followed self.new.parts.items next ≡ followed o.before.items
            (piece (rule.unnumbered (box_at stage.now.frame.now.boxes.now o.place).node)
            (rule.box_rect (box_at stage.now.frame.now.boxes.now o.place) stage.now.over o.left (self.old.at +ℤ rule.right (box_at stage.now.frame.now.boxes.now place) edge)) span_kind (pieces_of self.old.parts.items) next))) }
    {
        let inline_box = stage.box_at(place);
        let end = self.at + right(inline_box, edge);
        let margin = right_margin(inline_box, edge);
        self.close_innermost(alloc, stage, end)?;
        self.at = end + margin;
        Ok(())
    }

    // The innermost fragment ends here.
    fn close_innermost(
        &mut self,
        alloc: Global,
        stage: &LineStage,
        end: i64,
    ) -> Result<(), AllocError>
        requires opened { AreOpen (length stage.now.frame.now.boxes.now) self.old.opened.items }
        requires end { unsigned_abs end ≤ 2 ^ 61 }
        ensures at { OnOk result (self.new.at ≡ self.old.at) }
        ensures closed { OnOk result ((os : List Open) (o : Open) → self.old.opened.items ≡ os ++ o ∷ []
            → (self.new.opened.items ≡ os) × ((next : Pieces) → followed self.new.parts.items next ≡ followed o.before.items
            (piece (rule.unnumbered (box_at stage.now.frame.now.boxes.now o.place).node)
            (rule.box_rect (box_at stage.now.frame.now.boxes.now o.place) stage.now.over o.left end) span_kind (pieces_of self.old.parts.items) next))) }
    {
        if let Some(begun) = self.opened.pop() {
            let parts = mem::replace(&mut self.parts, Vec::new(alloc));
            self.parts = stage.close_box(alloc, end, begun, parts)?;
        }
        Ok(())
    }

    // A run stands there.
    fn show<S: LineSource>(
        &mut self,
        alloc: Global,
        stage: &LineStage,
        run: &LeafSlice<S>,
    ) -> Result<(), AllocError>
        requires inside { IsBefore (length stage.now.frame.now.boxes.now) (inside_of run.now) }
        requires run { total leaf_reach run.now ≤ 2 ^ 60 }
        requires at { unsigned_abs self.old.at ≤ 2 ^ 61 }
        ensures at { OnOk result (self.new.at ≡ self.old.at +ℤ rule.extent_of run.now) }
        ensures opened { OnOk result (self.new.opened ≡ self.old.opened) }
        ensures parts { OnOk result ((next : Pieces) → followed self.new.parts.items next ≡ followed self.old.parts.items (rule.run_piece (line_in stage.now.frame.now []) stage.now.over self.old.at run.now next)) }
    {
        let extent = extent_of(run);
        let made = stage.run_fragment(alloc, self.at, run, extent)?;
        add_shown(&mut self.parts, made)?;
        self.at += extent;
        Ok(())
    }
}

#[tactic(auto, using(crate::proofs::Fragments::followed_push))]
fn add_shown(parts: &mut Fragments, made: Option<Fragment>) -> Result<(), AllocError>
    ensures { OnOk result ((next : Pieces) → followed parts.new.items next ≡ followed parts.old.items (followed_if made next)) }
{
    if let Some(fragment) = made {
        parts.push(fragment)?;
    }
    Ok(())
}
