//! Runs of text: units that stand side by side on a line and follow each other in the text.

ghost use Rattle.std.specs.Prelude.{◌≡◌, ◌+◌, ◌<◌, ◌≤◌, ◌∷◌, IfOk, length, take, drop};
ghost use Rattle.line_place.specs.Line.{content_of, item_of};
ghost use Rattle.line_place.specs.LineText.{unit_in};
ghost use Rattle.line_place.specs.Runs.{are_alike, follows, is_form, is_place, runs, stand_alike};

use crate::leaves::LeafSlice;
use crate::line::{LineContent, LineItem};
use crate::source::LineSource;
use fragment_types::{Glyphs, RunUnit, UnitKind};
use std::alloc::{AllocError, Global};

/// The run of leaves that begins at this place.
pub(crate) fn run_at<'a, S: LineSource>(leaves: &LeafSlice<'a, S>, start: usize) -> LeafSlice<'a, S>
    requires { start < length leaves.now }
    ensures runs { runs (drop start leaves.now) ≡ result ∷ runs (drop (start + length result) leaves.now) }
    ensures some { 0 < length result }
    ensures within { start + length result ≤ length leaves.now }
    ensures is { result ≡ take (length result) (drop start leaves.now) }
{
    let rest = leaves.rest_from(start);
    rest.front_of(run_length(&rest))
}

// How many leaves the first run has.
fn run_length<S: LineSource>(leaves: &LeafSlice<S>) -> usize
    requires { 0 < length leaves.now }
    ensures some { 0 < result }
    ensures within { result ≤ length leaves.now }
    ensures runs { runs leaves.now ≡ take result leaves.now ∷ runs (drop result leaves.now) }
{
    let mut length = 1;
    while length < leaves.len() && leaves.goes_on_at(length - 1) {
        length += 1;
    }
    length
}

/// An item as a unit of its run. What isn't text shows nothing.
pub(crate) fn unit_of(alloc: Global, item: &LineItem) -> Result<RunUnit, AllocError>
    ensures { IfOk result (λ made. made ≡ unit_in (item_of item.now)) }
{
    match item.what {
        LineContent::Unit {
            first,
            end,
            glyphs,
            ..
        }
        | LineContent::Combined {
            first,
            end,
            glyphs,
            ..
        } => RunUnit::new(alloc, first, end, item.extent, glyphs),
        LineContent::Atom { .. } | LineContent::Break => {
            RunUnit::new(alloc, 0, 0, item.extent, &Glyphs::none())
        }
    }
}

/// Whether two items may stand in one run: units of one text node and one form, inside the same box.
pub(crate) fn stand_alike(item: &LineItem, other: &LineItem) -> bool
    ensures { result ≡ stand_alike (item_of item.now) (item_of other.now) }
{
    are_alike(&item.what, &other.what) && is_place(item.inside, other.inside)
}

// Units of one text node and one form.
fn are_alike(one: &LineContent, other: &LineContent) -> bool
    ensures { result ≡ are_alike (content_of one.now) (content_of other.now) }
{
    match (one, other) {
        (
            LineContent::Unit { node, form, .. },
            LineContent::Unit {
                node: other_node,
                form: other_form,
                ..
            },
        ) => *node == *other_node && is_form(*form, *other_form),
        _ => false,
    }
}

fn is_form(one: UnitKind, other: UnitKind) -> bool
    ensures { result ≡ is_form one other }
{
    one == other
}

pub(crate) fn is_place(one: Option<usize>, other: Option<usize>) -> bool
    ensures { result ≡ is_place one other }
{
    one == other
}

/// Whether the second item follows the first one, where text of this level goes from line-left, or the other way.
pub(crate) fn follows(level: u8, place: usize, next: usize) -> bool
    ensures { result ≡ follows level place next }
{
    if level % 2 == 0 {
        place < next && next - place == 1
    } else {
        next < place && place - next == 1
    }
}
