//! Inline-blocks in a paragraph: their margin boxes on a line, and their baselines (CSS 2, 10.8.1).

ghost use Rattle.std.specs.Prelude.{◌≡◌, ◌+◌, ◌*◌, ◌≤◌, ◌^◌, ◌+ℤ◌, ◌-ℤ◌, IfOk, IfSome, Some, pos, unsigned_abs};
ghost use Rattle.fragment_types.specs.declared.fragment.Fragment.{out-Fragment};
ghost use Rattle.fragment_types.specs.Fragment.{kind_of, none, piece_of, pieces_of};
ghost use Rattle.style_types.specs.Style.{baseline_of};
ghost use Rattle.para_lines.specs.Paragraph.{atom_of};
ghost use Rattle.para_lines.specs.Reach.{atom_reach};
ghost use Rattle.relayout.specs.Atoms as rule;
ghost use Rattle.relayout.specs.Flowed.{as_laid, at, part_of};
ghost use Rattle.relayout.specs.Near.{IsNearKind, IsNearLine, line_reach, own_reach};

use crate::edges::side_in;
use crate::inside::LaidAtom;
use fragment_types::{BoxPart, Fragment, FragmentKind};
use para_lines::Atom;
use std::alloc::{AllocError, Global};
use style_types::{Baseline, Style};
use wm_modes::{FlowRect, FlowSide, Side, WritingMode};
use wm_units::half;

const FURTHEST: i64 = 1 << 33;

/// A line in a box of its mode. Lengths are in units of 1/64 px.
#[derive(Clone, Copy, Debug, PartialEq, Eq)]
pub(crate) struct LastLine {
    /// Its distance from the block-start edge of the box's content area.
    pub(crate) from: i64,
    /// Its block extent.
    pub(crate) extent: i64,
    /// The distance of its baseline from its line-over edge, and the kind of that.
    pub(crate) over: i64,
    pub(crate) baseline: Baseline,
}

impl LastLine {
    // The line in the box round its own, from whose block-start edge the content area of its own stands so far.
    fn further(self, distance: i64) -> LastLine
        ensures { unsigned_abs distance + unsigned_abs self.from ≤ 2 ^ 61 → Some result ≡ rule.further distance (Some self) }
    {
        LastLine {
            from: sum(distance, self.from),
            ..self
        }
    }

    // Where it ends.
    fn end(self) -> i64
        requires near { IsNearLine (2 ^ 61) self }
        ensures value { result ≡ rule.end_of self }
        ensures near { unsigned_abs result ≤ 2 ^ 61 }
    {
        self.from + self.extent
    }
}

// Two distances together. What would be further than a number can tell is held.
fn sum(one: i64, other: i64) -> i64
    ensures { unsigned_abs one + unsigned_abs other ≤ 2 ^ 61 → result ≡ one +ℤ other }
{
    one.saturating_add(other)
}

// The last line of what stands in a box of this mode, as far as distances are within 2^61.
#[cycle(last_line)]
fn last_line(mode: WritingMode, fragments: &[Fragment]) -> Option<LastLine>
    ensures value { line_reach (pieces_of fragments.now) ≤ 2 ^ 61 → result ≡ rule.last_line mode (pieces_of fragments.now) }
    ensures near { line_reach (pieces_of fragments.now) ≤ 2 ^ 61 → IfSome result (λ found. IsNearLine (line_reach (pieces_of fragments.now)) found) }
{
    for k in 0..fragments.len() {
        let fragment = &fragments[fragments.len() - 1 - k];
        if let Some(found) = line_of(mode, fragment) {
            return Some(found);
        }
    }
    None
}

// The last line of a fragment in a box of this mode: a line itself, or that of a block child in exactly its mode.
#[cycle(last_line)]
fn line_of(mode: WritingMode, fragment: &Fragment) -> Option<LastLine>
    ensures value { own_reach fragment.now ≤ 2 ^ 61 → result ≡ rule.own_line mode (part_of fragment.now) }
    ensures near { own_reach fragment.now ≤ 2 ^ 61 → IfSome result (λ found. IsNearLine (own_reach fragment.now) found) }
{
    match &fragment.kind {
        FragmentKind::Line { base, baseline, .. } => Some(LastLine {
            from: fragment.rect.b,
            extent: fragment.rect.block,
            over: *base,
            baseline: *baseline,
        }),
        FragmentKind::Box(part) => {
            let own: &BoxPart = part;
            if !same_mode(own.mode, mode) {
                return None;
            }
            let found = last_line(mode, &fragment.children)?;
            Some(found.further(sum(fragment.rect.b, own.content.b)))
        }
        FragmentKind::Span | FragmentKind::Run { .. } | FragmentKind::Measure { .. } => None,
    }
}

fn same_mode(one: WritingMode, other: WritingMode) -> bool
    ensures { result ≡ rule.same_mode one other }
{
    one == other
}

fn same_side(one: Side, other: Side) -> bool
    ensures { result ≡ rule.same_side one other }
{
    one == other
}

fn same_baseline(one: Baseline, other: Baseline) -> bool
    ensures { result ≡ rule.same_baseline one other }
{
    one == other
}

// The distance of a line from the line-over edge of the content area, which begins at block-start or ends there.
fn from_over(over_at_start: bool, content: FlowRect, found: LastLine) -> i64
    requires block { unsigned_abs content.block ≤ 2 ^ 36 }
    requires found { IsNearLine (2 ^ 61) found }
    ensures value { result ≡ rule.from_over over_at_start content found }
    ensures near { unsigned_abs result ≤ 2 ^ 61 + 2 ^ 36 }
{
    if over_at_start {
        found.from
    } else {
        content.block - found.end()
    }
}

// The distance of a line from the line-over edge of the border box of a box of this mode.
fn from_edge(own: WritingMode, content: FlowRect, found: LastLine) -> i64
    requires b { unsigned_abs content.b ≤ 2 ^ 36 }
    requires block { unsigned_abs content.block ≤ 2 ^ 36 }
    requires found { IsNearLine (2 ^ 61) found }
    ensures value { result ≡ rule.from_edge own content found }
    ensures near { unsigned_abs result ≤ 2 ^ 61 + 2 ^ 37 }
{
    let block_start = side_in(own, FlowSide::BlockStart);
    let over_at_start = same_side(block_start, side_in(own, FlowSide::LineOver));
    content.b + from_over(over_at_start, content, found)
}

fn from_border(own: WritingMode, content: FlowRect, found: LastLine) -> LastLine
    requires b { unsigned_abs content.b ≤ 2 ^ 36 }
    requires block { unsigned_abs content.block ≤ 2 ^ 36 }
    requires found { IsNearLine (2 ^ 61) found }
    ensures value { result ≡ rule.from_border own content found }
    ensures near { unsigned_abs result.from ≤ 2 ^ 62 }
{
    LastLine {
        from: from_edge(own, content, found),
        ..found
    }
}

// Whether lines of this mode go along those of the other, and both have one kind of baseline.
fn fits(own: WritingMode, mode: WritingMode, kind: Baseline, baseline: Baseline) -> bool
    ensures { result ≡ rule.fits own mode kind baseline }
{
    same_side(
        side_in(own, FlowSide::LineOver),
        side_in(mode, FlowSide::LineOver),
    ) && same_baseline(kind, baseline)
}

// The last line of an inline-block in a paragraph of this style, from the line-over edge of its border box, where it goes along
// the paragraph's lines and is of their kind.
fn own_baseline(paragraph: &Style, fragment: &Fragment) -> Option<LastLine>
    requires near { IsNearKind (kind_of (out-Fragment fragment.now).kind) }
    requires reach { line_reach (pieces_of (out-Fragment fragment.now).children.value.items) ≤ 2 ^ 61 }
    ensures value { result ≡ rule.own_baseline paragraph.now.mode (baseline_of paragraph.now.mode paragraph.now.orientation) (kind_of (out-Fragment fragment.now).kind) (pieces_of (out-Fragment fragment.now).children.value.items) }
{
    match &fragment.kind {
        FragmentKind::Box(part) => {
            let found = last_line(part.mode, &fragment.children)?;
            if fits(
                part.mode,
                paragraph.mode,
                found.baseline,
                paragraph.baseline(),
            ) {
                Some(from_border(part.mode, part.content, found))
            } else {
                None
            }
        }
        FragmentKind::Line { .. }
        | FragmentKind::Span
        | FragmentKind::Run { .. }
        | FragmentKind::Measure { .. } => None,
    }
}

// How far a box without such a line reaches over its baseline.
fn by_middle(baseline: Baseline, whole: i64) -> i64
    ensures { result ≡ rule.by_middle baseline whole }
{
    match baseline {
        Baseline::Alphabetic => whole,
        Baseline::Central => half(whole),
    }
}

// How far a margin box reaches over its baseline, from its margin there and its whole extent. What would be further than a
// number can tell is held, as all distances are in the end.
fn over_baseline(margin: i64, whole: i64, baseline: Baseline, found: Option<LastLine>) -> i64
    requires margin { unsigned_abs margin ≤ 2 ^ 32 }
    ensures { rule.held_distance result ≡ rule.held_distance (rule.over_baseline margin whole baseline found) }
{
    match found {
        None => by_middle(baseline, whole),
        Some(found) => margin.saturating_add(found.from.saturating_add(found.over)),
    }
}

fn held_distance(distance: i64) -> i64
    ensures value { result ≡ rule.held_distance distance }
    ensures near { unsigned_abs result ≤ 2 ^ 33 }
{
    distance.clamp(-FURTHEST, FURTHEST)
}

// A copy of the fragment with its border box at 0.
fn at_zero(fragment: &Fragment) -> Result<Fragment, AllocError>
    ensures { IfOk result (λ made. piece_of made ≡ at (pos 0) (pos 0) (part_of fragment.now) none) }
{
    let made = fragment.moved_to(FlowRect {
        i: 0,
        b: 0,
        ..fragment.rect
    })?;
    Ok(made)
}

// An extent with the margins beside it.
fn with_margins(extent: i64, margins: i64) -> i64
    requires extent { unsigned_abs extent ≤ 2 ^ 36 }
    requires margins { unsigned_abs margins ≤ 2 ^ 33 }
    ensures value { result ≡ extent +ℤ margins }
    ensures near { unsigned_abs result ≤ 2 ^ 36 + 2 ^ 33 }
{
    extent + margins
}

// What it reaches under its baseline.
fn under_of(whole: i64, over: i64) -> i64
    requires whole { unsigned_abs whole ≤ 2 ^ 36 + 2 ^ 33 }
    requires over { unsigned_abs over ≤ 2 ^ 33 }
    ensures value { result ≡ whole -ℤ over }
    ensures near { unsigned_abs result ≤ 2 ^ 36 + 2 ^ 34 }
{
    whole - over
}

impl LaidAtom<'_> {
    // The extent of its margin box along the lines of a mode.
    fn extent_along(&self, mode: WritingMode) -> i64
        ensures value { result ≡ rule.extent_along self.now.size mode (as_laid self.now.laid.now) }
        ensures near { unsigned_abs result ≤ 2 ^ 36 + 2 ^ 33 }
    {
        let margins = self.based_style().margins_along(mode);
        with_margins(self.laid.fragment.rect.inline, margins)
    }

    // That across them.
    fn extent_across(&self, mode: WritingMode) -> i64
        ensures value { result ≡ rule.extent_across self.now.size mode (as_laid self.now.laid.now) }
        ensures near { unsigned_abs result ≤ 2 ^ 36 + 2 ^ 33 }
    {
        let margins = self.based_style().margins_over(mode);
        with_margins(self.laid.fragment.rect.block, margins)
    }

    // How far it reaches over its baseline in a paragraph of this style.
    fn over_of(&self, paragraph: &Style) -> i64
        ensures value { result ≡ rule.over_of paragraph.now self.now.size (as_laid self.now.laid.now) }
        ensures near { unsigned_abs result ≤ 2 ^ 33 }
    {
        let mode = paragraph.mode;
        let margin = self
            .based_style()
            .margin_or_zero(side_in(mode, FlowSide::LineOver));
        let whole = self.extent_across(mode);
        let found = own_baseline(paragraph, &self.laid.fragment);
        held_distance(over_baseline(margin, whole, paragraph.baseline(), found))
    }

    /// The inline-block in a paragraph of this style.
    pub(crate) fn atom_in(&self, paragraph: &Style) -> Result<Atom, AllocError>
        ensures value { IfOk result (λ atom. atom_of atom ≡ rule.atom_in paragraph.now self.now.size (as_laid self.now.laid.now)) }
        ensures near { IfOk result (λ atom. atom_reach (atom_of atom) ≤ 5 * 2 ^ 36) }
    {
        let mode = paragraph.mode;
        let fragment = at_zero(&self.laid.fragment)?;
        let over = self.over_of(paragraph);
        let based = self.based_style();
        Ok(Atom {
            fragment,
            extent: self.extent_along(mode),
            left_margin: based.margin_or_zero(side_in(mode, FlowSide::LineLeft)),
            over_margin: based.margin_or_zero(side_in(mode, FlowSide::LineOver)),
            over,
            under: under_of(self.extent_across(mode), over),
            shift: self.laid.style.shift,
        })
    }
}
