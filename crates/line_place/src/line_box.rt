//! A whole line (CSS 2, 9.4.2 and 10.8).

ghost use Rattle.std.specs.Prelude.{◌≡◌, [], ℕ, ◌+◌, ◌*◌, ◌≤◌, ◌^◌, ◌-ℤ◌, IfOk, IfSome, length, map, unsigned_abs};
ghost use Rattle.std.specs.Int.{int_max};
ghost use Rattle.std.specs.List.{All, flat_map, fold};
ghost use Rattle.fragment_types.specs.Fragment.{pieces_of};
ghost use Rattle.line_place.specs.Line.{line_in, line_of};
ghost use Rattle.line_place.specs.LineText.{IsLineText, text_of};
ghost use Rattle.line_place.specs.Marks.{mark_of};
ghost use Rattle.line_place.specs.Placing as rule;
ghost use Rattle.line_place.specs.Reach.{AreInLimit, AreLineMarks, AreNested, AreOfBoxes, AreReached, HasLimit, IsAtomic, IsBefore, extents_reach, item_reach, line_reach, mark_reach, total};

use crate::empty::NoFragments;
use crate::leaves::{LeafSlice, leaves};
use crate::line::{LineFrame, LineInput};
use crate::line_text::{LineText, place_text};
use crate::marks::{Mark, marks};
use crate::measure::{line_over, line_under, offset, starts_at_left, width};
use crate::source::{LineSource, Listed};
use crate::walk::{LineStage, walked};
use fragment_types::LineFragment;
use std::alloc::{AllocError, Global};

/// Places a line: its inline boxes, runs and atoms as fragments from line-left, and how far it reaches over and under its
/// baseline, in units of 1/64 px (CSS 2, 9.4.2 and 10.8; UAX 9, 3.4). Boxes stand behind those round them, and the lengths
/// that come in, without their signs, sum to at most 2^60.
pub fn place_line_from<S: LineSource>(
    alloc: Global,
    frame: &LineFrame,
    source: &S,
) -> Result<LineFragment, AllocError>
    requires inside { All (λ item. IsBefore (length frame.now.boxes.now) item.inside) (S.items source.now) }
    requires nested { AreNested frame.now.boxes.now }
    requires reach { line_reach (line_in frame.now (S.items source.now)) ≤ 2 ^ 60 }
    ensures over { IfOk result (λ made. made.over ≡ rule.line_over (line_in frame.now (S.items source.now))) }
    ensures under { IfOk result (λ made. made.under ≡ rule.line_under (line_in frame.now (S.items source.now))) }
    ensures parts { IfOk result (λ made. pieces_of made.parts.items ≡ rule.parts (line_in frame.now (S.items source.now))) }
    ensures near { IfOk result (λ made. (unsigned_abs made.over ≤ 2 ^ 60) × (unsigned_abs made.under ≤ 2 ^ 60)) }
    ensures within { (limit : ℕ) → HasLimit limit (line_in frame.now (S.items source.now)) → IfOk result (λ made. (unsigned_abs made.over ≤ limit) × (unsigned_abs made.under ≤ limit)) }
    ensures reach { All (λ item. IsAtomic item.what) (S.items source.now) → IfOk result (λ made. AreInLimit (4 * line_reach (line_in frame.now (S.items source.now))) (pieces_of made.parts.items)) }
{
    let empty = NoFragments::new(alloc)?;
    let made = place_line_with(alloc, frame, source, &empty)?;
    Ok(made)
}

/// Places a line as `place_line_from` does, with a list that its fragments share with those of other lines.
pub fn place_line_with<S: LineSource>(
    alloc: Global,
    frame: &LineFrame,
    source: &S,
    empty: &NoFragments,
) -> Result<LineFragment, AllocError>
    requires inside { All (λ item. IsBefore (length frame.now.boxes.now) item.inside) (S.items source.now) }
    requires nested { AreNested frame.now.boxes.now }
    requires reach { line_reach (line_in frame.now (S.items source.now)) ≤ 2 ^ 60 }
    ensures over { IfOk result (λ made. made.over ≡ rule.line_over (line_in frame.now (S.items source.now))) }
    ensures under { IfOk result (λ made. made.under ≡ rule.line_under (line_in frame.now (S.items source.now))) }
    ensures parts { IfOk result (λ made. pieces_of made.parts.items ≡ rule.parts (line_in frame.now (S.items source.now))) }
    ensures near { IfOk result (λ made. (unsigned_abs made.over ≤ 2 ^ 60) × (unsigned_abs made.under ≤ 2 ^ 60)) }
    ensures within { (limit : ℕ) → HasLimit limit (line_in frame.now (S.items source.now)) → IfOk result (λ made. (unsigned_abs made.over ≤ limit) × (unsigned_abs made.under ≤ limit)) }
    ensures reach { All (λ item. IsAtomic item.what) (S.items source.now) → IfOk result (λ made. AreInLimit (4 * line_reach (line_in frame.now (S.items source.now))) (pieces_of made.parts.items)) }
{
    match known_text(alloc, frame, source)? {
        Some(text) => {
            let made = place_text(alloc, frame, text, empty)?;
            Ok(made)
        }
        None => {
            let made = place_items(alloc, frame, source, empty)?;
            Ok(made)
        }
    }
}

/// Places a line whose items are in a list, as `place_line_from` does.
pub fn place_line(alloc: Global, line: &LineInput) -> Result<LineFragment, AllocError>
    requires inside { All (λ item. IsBefore (length line.now.boxes.items) item.inside) (line_of line.now).items }
    requires nested { AreNested line.now.boxes.items }
    requires reach { line_reach (line_of line.now) ≤ 2 ^ 60 }
    ensures over { IfOk result (λ made. made.over ≡ rule.line_over (line_of line.now)) }
    ensures under { IfOk result (λ made. made.under ≡ rule.line_under (line_of line.now)) }
    ensures parts { IfOk result (λ made. pieces_of made.parts.items ≡ rule.parts (line_of line.now)) }
    ensures near { IfOk result (λ made. (unsigned_abs made.over ≤ 2 ^ 60) × (unsigned_abs made.under ≤ 2 ^ 60)) }
    ensures within { (limit : ℕ) → HasLimit limit (line_of line.now) → IfOk result (λ made. (unsigned_abs made.over ≤ limit) × (unsigned_abs made.under ≤ limit)) }
    ensures reach { All (λ item. IsAtomic item.what) (line_of line.now).items → IfOk result (λ made. AreInLimit (4 * line_reach (line_of line.now)) (pieces_of made.parts.items)) }
{
    let frame = LineFrame {
        base: line.base,
        align: line.align,
        available: line.available,
        strut: line.strut,
        boxes: &line.boxes,
    };
    let source = Listed { items: &line.items };
    let made = place_line_from(alloc, &frame, &source)?;
    Ok(made)
}

// The text that a line is, where its source knows it as one run and its base level is 0.
fn known_text<S: LineSource>(
    alloc: Global,
    frame: &LineFrame,
    source: &S,
) -> Result<Option<LineText>, AllocError>
    requires { total item_reach (S.items source.now) ≤ 2 ^ 60 }
    ensures text { IfOk result (λ made. IfSome made (λ text. IsLineText (text_of text) (S.items source.now))) }
    ensures base { IfOk result (λ made. IfSome made (λ text. frame.now.base ≡ 0)) }
    ensures boxes { IfOk result (λ made. IfSome made (λ text. frame.now.boxes.now ≡ [])) }
{
    if frame.base == 0 && frame.boxes.is_empty() {
        let made = source.text(alloc)?;
        Ok(made)
    } else {
        Ok(None)
    }
}

// Any line, by the row of marks of its items.
fn place_items<S: LineSource>(
    alloc: Global,
    frame: &LineFrame,
    source: &S,
    empty: &NoFragments,
) -> Result<LineFragment, AllocError>
    requires inside { All (λ item. IsBefore (length frame.now.boxes.now) item.inside) (S.items source.now) }
    requires nested { AreNested frame.now.boxes.now }
    requires reach { line_reach (line_in frame.now (S.items source.now)) ≤ 2 ^ 60 }
    ensures over { IfOk result (λ made. made.over ≡ rule.line_over (line_in frame.now (S.items source.now))) }
    ensures under { IfOk result (λ made. made.under ≡ rule.line_under (line_in frame.now (S.items source.now))) }
    ensures parts { IfOk result (λ made. pieces_of made.parts.items ≡ rule.parts (line_in frame.now (S.items source.now))) }
    ensures near { IfOk result (λ made. (unsigned_abs made.over ≤ 2 ^ 60) × (unsigned_abs made.under ≤ 2 ^ 60)) }
    ensures reach { All (λ item. IsAtomic item.what) (S.items source.now) → IfOk result (λ made. AreInLimit (4 * line_reach (line_in frame.now (S.items source.now))) (pieces_of made.parts.items)) }
{
    let list = leaves(alloc, frame, source)?;
    let leaves = LeafSlice::of_list(source, &list);
    let marks = marks(alloc, frame.boxes, &leaves)?;
    let made = of_marks(alloc, frame, &marks, empty)?;
    Ok(made)
}

// The line of this row of marks.
fn of_marks<S: LineSource>(
    alloc: Global,
    line: &LineFrame,
    marks: &[Mark<S>],
    empty: &NoFragments,
) -> Result<LineFragment, AllocError>
    requires marks { AreLineMarks (length line.now.boxes.now) (map mark_of marks.now) }
    requires boxes { AreReached line.now.boxes.now }
    requires strut { extents_reach line.now.strut ≤ 2 ^ 60 }
    requires reach { unsigned_abs line.now.available + total (mark_reach line.now.boxes.now) (map mark_of marks.now) ≤ 2 ^ 60 }
    ensures over { IfOk result (λ made. made.over ≡ fold int_max line.now.strut.over (flat_map (rule.over_of line.now.boxes.now) (map mark_of marks.now))) }
    ensures under { IfOk result (λ made. made.under ≡ fold int_max line.now.strut.under (flat_map (rule.under_of line.now.boxes.now) (map mark_of marks.now))) }
    ensures parts { IfOk result (λ made. pieces_of made.parts.items ≡ rule.outermost (rule.rows (line_in line.now []) made.over
        (rule.offset line.now.align line.now.base (line.now.available -ℤ rule.width line.now.boxes.now (map mark_of marks.now))) (map mark_of marks.now))) }
    ensures near { IfOk result (λ made. (unsigned_abs made.over ≤ 2 ^ 60) × (unsigned_abs made.under ≤ 2 ^ 60)) }
{
    let over = line_over(line.boxes, line.strut.over, marks);
    let under = line_under(line.boxes, line.strut.under, marks);
    let at = content_start(line, marks);
    let stage = LineStage {
        frame: line,
        over,
        empty,
    };
    let parts = walked(alloc, &stage, at, marks)?;
    Ok(LineFragment { over, under, parts })
}

// Where the content of a line with these marks starts from line-left. Most lines start there whatever their width is.
fn content_start<S: LineSource>(line: &LineFrame, marks: &[Mark<S>]) -> i64
    requires of_boxes { AreOfBoxes (length line.now.boxes.now) (map mark_of marks.now) }
    requires reach { unsigned_abs line.now.available + total (mark_reach line.now.boxes.now) (map mark_of marks.now) ≤ 2 ^ 60 }
    ensures is { result ≡ rule.offset line.now.align line.now.base (line.now.available -ℤ rule.width line.now.boxes.now (map mark_of marks.now)) }
    ensures near { unsigned_abs result ≤ 2 ^ 60 }
{
    if starts_at_left(line.align, line.base) {
        0
    } else {
        let rest = line.available - width(line.boxes, marks);
        offset(line.align, line.base, rest)
    }
}
