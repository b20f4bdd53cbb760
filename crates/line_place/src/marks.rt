//! A line from line-left as a row of marks: where an inline box begins, where one ends, and what stands there (CSS 2, 9.4.2).

ghost use Rattle.std.specs.Prelude.{◌≡◌, ℕ, ◌<◌, ◌++◌, [], ◌∷◌, ◌⊎◌, List, false, All, IfNone, IfOk, IfSome, OnOk, length, map, reverse};
ghost use Rattle.line_place.specs.Marks.{Mark as SeenMark, at_left, at_right, begins, between, box_at, ends, inside_of, is_begin_of, is_end_of, left_behind, leftmost, mark_of, marks_after, marks_of, rightmost};
ghost use Rattle.line_place.specs.Reach.{AreNested, AreWithin, AreOfBoxes, IsBefore, IsOfBox, Tells};
ghost use Rattle.line_place.specs.Runs as runs;

use crate::leaves::LeafSlice;
use crate::line::LineBox;
use crate::runs::{is_place, run_at};
use crate::source::LineSource;
use std::alloc::{AllocError, Global};

/// What a line has from line-left: a fragment of an inline box begins or ends, by the place of the box, or leaves stand
/// there. `edge` says that the fragment is the leftmost one of its box where it begins, and the rightmost one where it ends.
#[derive(Drop)]
pub(crate) enum Mark<'a, S: LineSource> {
    Begins { place: usize, edge: bool },
    Ends { place: usize, edge: bool },
    Shows(LeafSlice<'a, S>),
}

pub(crate) type Marks<'a, S> = Vec<Mark<'a, S>>;

// For how many marks there is room at first: most lines have fewer.
const ROOM: usize = 16;

// The places of boxes, innermost first.
type Places = Vec<usize>;

// For each box whether a mark was met that is looked for.
type Flags = Vec<bool>;

/// The marks of leaves that stand in these boxes.
#[tactic(auto, using(crate::proofs::MarkLaws::bare_alone))]
pub(crate) fn marks<'a, S: LineSource>(
    alloc: Global,
    boxes: &[LineBox],
    leaves: &LeafSlice<'a, S>,
) -> Result<Marks<'a, S>, AllocError>
    requires nested { AreNested boxes.now }
    requires within { AreWithin (length boxes.now) leaves.now }
    ensures { IfOk result (λ made. map mark_of made.items ≡ marks_of boxes.now leaves.now) }
{
    let bare = bare_marks(alloc, boxes, leaves)?;
    if boxes.is_empty() {
        return Ok(bare);
    }
    let from_right = with_rightmost(alloc, &bare, boxes.len())?;
    let marks = with_leftmost(alloc, &from_right, boxes.len())?;
    Ok(marks)
}

// The box that is passed first on the way from the one place to the other: the deeper one of two boxes.
fn deeper(one: Option<usize>, other: Option<usize>) -> Option<usize>
    ensures same { IfNone result (one ≡ other) }
    ensures deeper { IfSome result (λ p. ((one ≡ Some p) × IsBefore p other) ⊎ ((other ≡ Some p) × IsBefore p one)) }
{
    match (one, other) {
        (None, None) => None,
        (Some(p), None) | (None, Some(p)) => Some(p),
        (Some(p), Some(q)) => { if p == q { None } else { Some(p.max(q)) } }
    }
}

fn outer_of(boxes: &[LineBox], place: usize) -> Option<usize>
    requires nested { AreNested boxes.now }
    requires within { place < length boxes.now }
    ensures outer { result ≡ (box_at boxes.now place).outer }
    ensures before { IsBefore place result }
{
    boxes[place].outer
}

// Ends the boxes round the one place that are not round the other. The boxes round the other that are not round the one are
// yet to begin.
fn end_boxes<S: LineSource>(
    alloc: Global,
    marks: &mut Marks<S>,
    boxes: &[LineBox],
    from: Option<usize>,
    to: Option<usize>,
) -> Result<Places, AllocError>
    requires nested { AreNested boxes.now }
    requires from { IsBefore (length boxes.now) from }
    requires to { IsBefore (length boxes.now) to }
    ensures ends { OnOk result (map mark_of marks.new.items ≡ map mark_of marks.old.items ++ map (λ p. ends p false) (left_behind boxes.now from to)) }
    ensures fresh { IfOk result (λ fresh. fresh.items ≡ left_behind boxes.now to from) }
{
    let mut fresh = Vec::new(alloc);
    let (mut one, mut other) = (from, to);
    while let Some(place) = deeper(one, other) {
        if is_place(one, Some(place)) {
            marks.push(Mark::Ends { place, edge: false })?;
            one = outer_of(boxes, place);
        } else {
            fresh.push(place)?;
            other = outer_of(boxes, place);
        }
    }
    Ok(fresh)
}

fn begin_boxes<S: LineSource>(marks: &mut Marks<S>, fresh: &[usize]) -> Result<(), AllocError>
    ensures { OnOk result (map mark_of marks.new.items ≡ map mark_of marks.old.items ++ map (λ p. begins p false) (reverse fresh.now)) }
{
    let mut left = fresh.len();
    while left > 0 {
        left -= 1;
        marks.push(Mark::Begins {
            place: fresh[left],
            edge: false,
        })?;
    }
    Ok(())
}

// Goes from what stands inside the one box to what stands inside the other.
fn pass<S: LineSource>(
    alloc: Global,
    marks: &mut Marks<S>,
    boxes: &[LineBox],
    from: Option<usize>,
    to: Option<usize>,
) -> Result<(), AllocError>
    requires nested { AreNested boxes.now }
    requires from { IsBefore (length boxes.now) from }
    requires to { IsBefore (length boxes.now) to }
    ensures { OnOk result (map mark_of marks.new.items ≡ map mark_of marks.old.items ++ between boxes.now from to) }
{
    let fresh = end_boxes(alloc, marks, boxes, from, to)?;
    begin_boxes(marks, &fresh)?;
    Ok(())
}

// The marks of leaves, which don't tell yet which fragment of a box is the leftmost and which the rightmost.
fn bare_marks<'a, S: LineSource>(
    alloc: Global,
    boxes: &[LineBox],
    leaves: &LeafSlice<'a, S>,
) -> Result<Marks<'a, S>, AllocError>
    requires nested { AreNested boxes.now }
    requires within { AreWithin (length boxes.now) leaves.now }
    ensures { IfOk result (λ made. map mark_of made.items ≡ marks_after boxes.now None (runs.runs leaves.now)) }
{
    let mut marks = Vec::with_capacity(alloc, ROOM)?;
    let mut inside = None;
    let mut at = 0;
    while at < leaves.len() {
        let run = run_at(leaves, at);
        let next = run.first_inside();
        pass(alloc, &mut marks, boxes, inside, next)?;
        at += run.len();
        marks.push(Mark::Shows(run))?;
        inside = next;
    }
    pass(alloc, &mut marks, boxes, inside, None)?;
    Ok(marks)
}

// The marks from line-left, from the same marks from line-right, which now tell which fragment of each of so many boxes is
// the leftmost one.
fn with_leftmost<'a, S: LineSource>(
    alloc: Global,
    from_right: &[Mark<'a, S>],
    count: usize,
) -> Result<Marks<'a, S>, AllocError>
    requires { AreOfBoxes count (reverse (map mark_of from_right.now)) }
    ensures { IfOk result (λ made. map mark_of made.items ≡ leftmost [] (reverse (map mark_of from_right.now))) }
{
    let mut begun = vec![in alloc; false; count]?;
    let mut made = Vec::with_capacity(alloc, from_right.len())?;
    let mut left = from_right.len();
    while left > 0 {
        left -= 1;
        made.push(at_left(&mut begun, &from_right[left]))?;
    }
    Ok(made)
}

// A mark of a line that is gone through from line-left, where these boxes have begun before it: a fragment that begins
// is the leftmost one of its box unless the box is among them.
fn at_left<'a, S: LineSource>(begun: &mut Flags, mark: &Mark<'a, S>) -> Mark<'a, S>
    requires { IsOfBox (length begun.old.items) (mark_of mark.now) }
    ensures same { length begun.new.items ≡ length begun.old.items }
    ensures mark { (before : List SeenMark) → Tells is_begin_of begun.old.items before → mark_of result ≡ at_left before (mark_of mark.now) }
    ensures begun { (before : List SeenMark) → Tells is_begin_of begun.old.items before → Tells is_begin_of begun.new.items (before ++ mark_of mark.now ∷ []) }
{
    match mark {
        Mark::Begins { place, edge: _ } => {
            let edge = !begun[*place];
            begun[*place] = true;
            Mark::Begins {
                place: *place,
                edge,
            }
        }
        Mark::Ends { place, edge } => Mark::Ends {
            place: *place,
            edge: *edge,
        },
        Mark::Shows(run) => Mark::Shows(run.same_leaves()),
    }
}

// The marks from line-right, which tell which fragment of each of so many boxes is the rightmost one.
fn with_rightmost<'a, S: LineSource>(
    alloc: Global,
    marks: &[Mark<'a, S>],
    count: usize,
) -> Result<Marks<'a, S>, AllocError>
    requires { AreOfBoxes count (map mark_of marks.now) }
    ensures { IfOk result (λ made. reverse (map mark_of made.items) ≡ rightmost (map mark_of marks.now)) }
{
    let mut ended = vec![in alloc; false; count]?;
    let mut made = Vec::with_capacity(alloc, marks.len())?;
    let mut from = marks.len();
    while from > 0 {
        from -= 1;
        made.push(at_right(&mut ended, &marks[from]))?;
    }
    Ok(made)
}

// A mark of a line that is gone through from line-right, where these boxes end after it: a fragment that ends is the
// rightmost one of its box unless the box is among them.
fn at_right<'a, S: LineSource>(ended: &mut Flags, mark: &Mark<'a, S>) -> Mark<'a, S>
    requires { IsOfBox (length ended.old.items) (mark_of mark.now) }
    ensures same { length ended.new.items ≡ length ended.old.items }
    ensures mark { (after : List SeenMark) → Tells is_end_of ended.old.items after → mark_of result ≡ at_right after (mark_of mark.now) }
    ensures ended { (after : List SeenMark) → Tells is_end_of ended.old.items after → Tells is_end_of ended.new.items (mark_of mark.now ∷ after) }
{
    match mark {
        Mark::Begins { place, edge } => Mark::Begins {
            place: *place,
            edge: *edge,
        },
        Mark::Ends { place, edge: _ } => {
            let edge = !ended[*place];
            ended[*place] = true;
            Mark::Ends {
                place: *place,
                edge,
            }
        }
        Mark::Shows(run) => Mark::Shows(run.same_leaves()),
    }
}
