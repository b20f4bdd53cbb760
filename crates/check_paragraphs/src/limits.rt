//! What a line may have so that it can be placed: where its boxes stand, and how far its lengths reach (CSS 2, 9.4.2).

ghost use Rattle.std.specs.Prelude.{◌≡◌, ◌+◌, ◌≤◌, ◌^◌, true, All, IfSome, length, map, sum_by, unsigned_abs};
ghost use Rattle.line_place.specs.Line.{content_of, item_of, line_of};
ghost use Rattle.line_place.specs.Reach.{AreNested, IsBefore, box_reach, content_reach, extents_reach, item_reach, line_reach};

use crate::sums::with_length;
use line_place::{Extents, LineBox, LineContent, LineInput, LineItem};

/// Whether a line is such as `place_line` takes.
pub(crate) fn can_be_placed(line: &LineInput) -> bool
    ensures inside { result ≡ true → All (λ item. IsBefore (length line.now.boxes.items) item.inside) (line_of line.now).items }
    ensures nested { result ≡ true → AreNested line.now.boxes.items }
    ensures reach { result ≡ true → line_reach (line_of line.now) ≤ 2 ^ 60 }
{
    are_inside(&line.items, line.boxes.len()) && are_nested(&line.boxes) && is_near(line)
}

// Whether each item stands in one of so many boxes, or in none.
#[tactic(auto, using(crate::proofs::Lines::all_inside))]
fn are_inside(items: &[LineItem], count: usize) -> bool
    ensures { result ≡ true → All (λ item. IsBefore count item.inside) (map item_of items.now) }
{
    for item in items {
        if !is_before(item.inside, count) {
            return false;
        }
    }
    true
}

// Whether each box stands behind the one round it.
fn are_nested(boxes: &[LineBox]) -> bool
    ensures { result ≡ true → AreNested boxes.now }
{
    for place in 0..boxes.len() {
        if !is_before(boxes[place].outer, place) {
            return false;
        }
    }
    true
}

fn is_before(place: Option<usize>, end: usize) -> bool
    ensures { result ≡ true → IsBefore end place }
{
    match place {
        Some(place) => place < end,
        None => true,
    }
}

// Whether all lengths, without their signs, come to at most 2^60.
#[tactic(auto, using(crate::proofs::Lines::line_sum))]
fn is_near(line: &LineInput) -> bool
    ensures { result ≡ true → line_reach (line_of line.now) ≤ 2 ^ 60 }
{
    match sum_of(line) {
        Some(_) => true,
        None => false,
    }
}

fn sum_of(line: &LineInput) -> Option<u64>
    ensures { IfSome result (λ sum. (sum ≡ unsigned_abs line.now.available + extents_reach line.now.strut
        + sum_by (λ item. item_reach (item_of item)) line.now.items.items + sum_by box_reach line.now.boxes.items) × (sum ≤ 2 ^ 60)) }
{
    let available = with_length(0, line.available)?;
    let strut = with_extents(available, line.strut)?;
    let items = with_items(strut, &line.items)?;
    let all = with_boxes(items, &line.boxes)?;
    Some(all)
}

#[tactic(auto, using(std::proofs::lemmas::List::Sums::sum_by_more))]
fn with_items(start: u64, items: &[LineItem]) -> Option<u64>
    requires { start ≤ 2 ^ 60 }
    ensures { IfSome result (λ more. (more ≡ start + sum_by (λ item. item_reach (item_of item)) items.now) × (more ≤ 2 ^ 60)) }
{
    let mut sum = start;
    for item in items {
        sum = with_item(sum, item)?;
    }
    Some(sum)
}

#[tactic(auto, using(std::proofs::lemmas::List::Sums::sum_by_more))]
fn with_boxes(start: u64, boxes: &[LineBox]) -> Option<u64>
    requires { start ≤ 2 ^ 60 }
    ensures { IfSome result (λ more. (more ≡ start + sum_by box_reach boxes.now) × (more ≤ 2 ^ 60)) }
{
    let mut sum = start;
    for inline_box in boxes {
        sum = with_box(sum, *inline_box)?;
    }
    Some(sum)
}

fn with_item(sum: u64, item: &LineItem) -> Option<u64>
    ensures { IfSome result (λ more. (more ≡ sum + item_reach (item_of item.now)) × (more ≤ 2 ^ 60)) }
{
    let extent = with_length(sum, item.extent)?;
    let all = with_content(extent, &item.what)?;
    Some(all)
}

fn with_content(sum: u64, what: &LineContent) -> Option<u64>
    requires { sum ≤ 2 ^ 60 }
    ensures { IfSome result (λ more. (more ≡ sum + content_reach (content_of what.now)) × (more ≤ 2 ^ 60)) }
{
    match what {
        LineContent::Unit { .. } | LineContent::Combined { .. } | LineContent::Break => Some(sum),
        LineContent::Atom {
            fragment,
            left_margin,
            over_margin,
            over,
            under,
        } => {
            let inline = with_length(sum, fragment.rect.inline)?;
            let block = with_length(inline, fragment.rect.block)?;
            with_four(block, *left_margin, *over_margin, *over, *under)
        }
    }
}

fn with_box(sum: u64, inline_box: LineBox) -> Option<u64>
    ensures { IfSome result (λ more. (more ≡ sum + box_reach inline_box) × (more ≤ 2 ^ 60)) }
{
    let extents = with_extents(sum, inline_box.extents)?;
    let left = with_two(extents, inline_box.left_margin, inline_box.left)?;
    let right = with_two(left, inline_box.right, inline_box.right_margin)?;
    let all = with_two(right, inline_box.over, inline_box.under)?;
    Some(all)
}

fn with_extents(sum: u64, extents: Extents) -> Option<u64>
    ensures { IfSome result (λ more. (more ≡ sum + extents_reach extents) × (more ≤ 2 ^ 60)) }
{
    let ascent = with_length(sum, extents.ascent)?;
    let all = with_four(
        ascent,
        extents.descent,
        extents.over,
        extents.under,
        extents.raised,
    )?;
    Some(all)
}

/// The sum with four lengths more, if it is at most 2^60.
pub(crate) fn with_four(sum: u64, a: i64, b: i64, c: i64, d: i64) -> Option<u64>
    ensures { IfSome result (λ more. (more ≡ sum + unsigned_abs a + unsigned_abs b + unsigned_abs c + unsigned_abs d) × (more ≤ 2 ^ 60)) }
{
    let two = with_two(sum, a, b)?;
    let four = with_two(two, c, d)?;
    Some(four)
}

fn with_two(sum: u64, a: i64, b: i64) -> Option<u64>
    ensures { IfSome result (λ more. (more ≡ sum + unsigned_abs a + unsigned_abs b) × (more ≤ 2 ^ 60)) }
{
    let one = with_length(sum, a)?;
    let two = with_length(one, b)?;
    Some(two)
}
