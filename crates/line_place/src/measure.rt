//! How wide a line is, where its content starts, and how far it reaches over and under its baseline (CSS 2, 8.3, 10.8 and
//! 16.2).

ghost use Rattle.std.specs.Prelude.{◌≡◌, ◌+◌, ◌<◌, ◌≤◌, ◌^◌, ◌-ℤ◌, true, ℤ, pos, length, map, unsigned_abs};
ghost use Rattle.std.specs.Int.{int_max};
ghost use Rattle.std.specs.List.{flat_map, fold};
ghost use Rattle.line_place.specs.Leaves.{seen, what_of};
ghost use Rattle.line_place.specs.Marks.{ShowAtomsFirst, ShowsAtomFirst, box_at, mark_of};
ghost use Rattle.line_place.specs.Placing as rule;
ghost use Rattle.line_place.specs.Runs.{HasAtomFirst};
ghost use Rattle.line_place.specs.Reach.{AreOfBoxes, IsOfBox, box_reach, leaf_reach, left_reach, mark_reach, right_reach, total};

use crate::leaves::LeafSlice;
use crate::line::{LineBox, LineContent};
use crate::marks::Mark;
use crate::source::LineSource;
use style_types::Align;
use wm_modes::Direction;
use wm_units::half;

/// Whether the line-left edges of a box stand on this line.
fn has_left(inline_box: &LineBox) -> bool
    ensures { result ≡ rule.has_left inline_box.now }
{
    match inline_box.dir {
        Direction::Ltr => inline_box.first,
        Direction::Rtl => inline_box.last,
    }
}

/// Whether the line-right edges of a box stand on this line.
fn has_right(inline_box: &LineBox) -> bool
    ensures { result ≡ rule.has_right inline_box.now }
{
    match inline_box.dir {
        Direction::Ltr => inline_box.last,
        Direction::Rtl => inline_box.first,
    }
}

/// The margin where a fragment of the box begins.
pub(crate) fn left_margin(inline_box: &LineBox, edge: bool) -> i64
    ensures { result ≡ rule.left_margin inline_box.now edge }
{
    if edge && has_left(inline_box) {
        inline_box.left_margin
    } else {
        0
    }
}

/// The border and the padding where a fragment of the box begins.
pub(crate) fn left(inline_box: &LineBox, edge: bool) -> i64
    ensures { result ≡ rule.left inline_box.now edge }
{
    if edge && has_left(inline_box) {
        inline_box.left
    } else {
        0
    }
}

/// The border and the padding where a fragment of the box ends.
pub(crate) fn right(inline_box: &LineBox, edge: bool) -> i64
    ensures { result ≡ rule.right inline_box.now edge }
{
    if edge && has_right(inline_box) {
        inline_box.right
    } else {
        0
    }
}

/// The margin where a fragment of the box ends.
pub(crate) fn right_margin(inline_box: &LineBox, edge: bool) -> i64
    ensures { result ≡ rule.right_margin inline_box.now edge }
{
    if edge && has_right(inline_box) {
        inline_box.right_margin
    } else {
        0
    }
}

/// The extent of a run along the line.
pub(crate) fn extent_of<S: LineSource>(run: &LeafSlice<S>) -> i64
    requires { total leaf_reach run.now ≤ 2 ^ 60 }
    ensures is { result ≡ rule.extent_of run.now }
    ensures near { unsigned_abs result ≤ total leaf_reach run.now }
{
    let mut extent = 0;
    let mut from = run.len();
    while from > 0 {
        from -= 1;
        extent += run.extent_at(from);
    }
    extent
}

/// How far a mark advances along the line.
pub(crate) fn advance<S: LineSource>(boxes: &[LineBox], mark: &Mark<S>) -> i64
    requires of_box { IsOfBox (length boxes.now) (mark_of mark.now) }
    requires reach { mark_reach boxes.now (mark_of mark.now) ≤ 2 ^ 60 }
    ensures is { result ≡ rule.advance boxes.now (mark_of mark.now) }
    ensures near { unsigned_abs result ≤ mark_reach boxes.now (mark_of mark.now) }
{
    match mark {
        Mark::Begins { place, edge } => {
            left_margin(&boxes[*place], *edge) + left(&boxes[*place], *edge)
        }
        Mark::Ends { place, edge } => {
            right(&boxes[*place], *edge) + right_margin(&boxes[*place], *edge)
        }
        Mark::Shows(run) => extent_of(run),
    }
}

/// The width of a line.
pub(crate) fn width<S: LineSource>(boxes: &[LineBox], marks: &[Mark<S>]) -> i64
    requires of_boxes { AreOfBoxes (length boxes.now) (map mark_of marks.now) }
    requires reach { total (mark_reach boxes.now) (map mark_of marks.now) ≤ 2 ^ 60 }
    ensures is { result ≡ rule.width boxes.now (map mark_of marks.now) }
    ensures near { unsigned_abs result ≤ total (mark_reach boxes.now) (map mark_of marks.now) }
{
    let mut width = 0;
    let mut from = marks.len();
    while from > 0 {
        from -= 1;
        width += advance(boxes, &marks[from]);
    }
    width
}

/// Whether the content of a line starts at line-left, however much is left of the available size.
pub(crate) fn starts_at_left(align: Align, base: u8) -> bool
    ensures { result ≡ true → (rest : ℤ) → rule.offset align base rest ≡ pos 0 }
{
    match align {
        Align::Start | Align::Left => base == 0,
        Align::End | Align::Right | Align::Center => false,
    }
}

/// Where the content of a line starts from line-left, where that much is left of the available size (CSS 2, 16.2).
pub(crate) fn offset(align: Align, base: u8, rest: i64) -> i64
    ensures is { result ≡ rule.offset align base rest }
    ensures near { unsigned_abs result ≤ unsigned_abs rest }
{
    if rest < 0 {
        at_start(base, rest)
    } else {
        aligned(align, base, rest)
    }
}

#[tactic(auto, using(crate::proofs::Lengths::half_near))]
fn aligned(align: Align, base: u8, rest: i64) -> i64
    ensures is { result ≡ rule.aligned align base rest }
    ensures near { unsigned_abs result ≤ unsigned_abs rest }
{
    match align {
        Align::Start => at_start(base, rest),
        Align::End => at_end(base, rest),
        Align::Left => 0,
        Align::Right => rest,
        Align::Center => half(rest),
    }
}

fn at_start(base: u8, rest: i64) -> i64
    ensures is { result ≡ rule.at_start base rest }
    ensures near { unsigned_abs result ≤ unsigned_abs rest }
{
    if base == 0 { 0 } else { rest }
}

fn at_end(base: u8, rest: i64) -> i64
    ensures is { result ≡ rule.at_end base rest }
    ensures near { unsigned_abs result ≤ unsigned_abs rest }
{
    if base == 0 { rest } else { 0 }
}

/// How far a line reaches over its baseline: as far as the strut, its inline boxes and its atoms do (CSS 2, 10.8.1).
pub(crate) fn line_over<S: LineSource>(boxes: &[LineBox], strut: i64, marks: &[Mark<S>]) -> i64
    requires atoms { ShowAtomsFirst (map mark_of marks.now) }
    requires of_boxes { AreOfBoxes (length boxes.now) (map mark_of marks.now) }
    ensures { result ≡ fold int_max strut (flat_map (rule.over_of boxes.now) (map mark_of marks.now)) }
{
    let mut over = strut;
    for mark in marks {
        over = with_over(boxes, over, mark);
    }
    over
}

/// How far a line reaches under its baseline (CSS 2, 10.8.1).
pub(crate) fn line_under<S: LineSource>(boxes: &[LineBox], strut: i64, marks: &[Mark<S>]) -> i64
    requires atoms { ShowAtomsFirst (map mark_of marks.now) }
    requires of_boxes { AreOfBoxes (length boxes.now) (map mark_of marks.now) }
    ensures { result ≡ fold int_max strut (flat_map (rule.under_of boxes.now) (map mark_of marks.now)) }
{
    let mut under = strut;
    for mark in marks {
        under = with_under(boxes, under, mark);
    }
    under
}

fn with_over<S: LineSource>(boxes: &[LineBox], over: i64, mark: &Mark<S>) -> i64
    requires atoms { ShowsAtomFirst (mark_of mark.now) }
    requires of_box { IsOfBox (length boxes.now) (mark_of mark.now) }
    ensures { result ≡ fold int_max over (rule.over_of boxes.now (mark_of mark.now)) }
{
    match mark {
        Mark::Begins { place, edge: _ } => over.max(boxes[*place].extents.over),
        Mark::Ends { .. } => over,
        Mark::Shows(run) => with_atoms_over(over, run),
    }
}

fn with_under<S: LineSource>(boxes: &[LineBox], under: i64, mark: &Mark<S>) -> i64
    requires atoms { ShowsAtomFirst (mark_of mark.now) }
    requires of_box { IsOfBox (length boxes.now) (mark_of mark.now) }
    ensures { result ≡ fold int_max under (rule.under_of boxes.now (mark_of mark.now)) }
{
    match mark {
        Mark::Begins { place, edge: _ } => under.max(boxes[*place].extents.under),
        Mark::Ends { .. } => under,
        Mark::Shows(run) => with_atoms_under(under, run),
    }
}

// An atom stands in a run of its own.
fn with_atoms_over<S: LineSource>(over: i64, run: &LeafSlice<S>) -> i64
    requires { HasAtomFirst run.now }
    ensures { result ≡ fold int_max over (flat_map (λ leaf. rule.atom_over leaf.what) run.now) }
{
    with_atom_over(over, run.first_what())
}

fn with_atoms_under<S: LineSource>(under: i64, run: &LeafSlice<S>) -> i64
    requires { HasAtomFirst run.now }
    ensures { result ≡ fold int_max under (flat_map (λ leaf. rule.atom_under leaf.what) run.now) }
{
    with_atom_under(under, run.first_what())
}

fn with_atom_over(over: i64, what: Option<LineContent>) -> i64
    ensures { result ≡ fold int_max over (rule.atom_over (seen what.entry)) }
{
    match what {
        Some(
            LineContent::Atom {
                over: atom_over,
                ..
            },
        ) => over.max(atom_over),
        Some(LineContent::Unit { .. } | LineContent::Combined { .. } | LineContent::Break) | None =>
            over,
    }
}

fn with_atom_under(under: i64, what: Option<LineContent>) -> i64
    ensures { result ≡ fold int_max under (rule.atom_under (seen what.entry)) }
{
    match what {
        Some(
            LineContent::Atom {
                under: atom_under,
                ..
            },
        ) => under.max(atom_under),
        Some(LineContent::Unit { .. } | LineContent::Combined { .. } | LineContent::Break) | None =>
            under,
    }
}
