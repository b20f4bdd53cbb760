//! The inline boxes of a line (CSS 2, 9.4.2 and 10.8.1).

ghost use Rattle.std.specs.Prelude.{◌≡◌, ◌+◌, ◌<◌, ◌≤◌, ◌^◌, ◌+ℤ◌, ◌++◌, [], All, IfOk, IfSome, OnOk, Option, length, reverse, unsigned_abs};
ghost use Rattle.face_api.specs.Faces.{faces_of};
ghost use Rattle.line_place.specs.Reach.{AreNear};
ghost use Rattle.wm_units.specs.Numbers.{cap};
ghost use Rattle.para_lines.specs.Around.{fresh};
ghost use Rattle.para_lines.specs.Boxes.{chain_at, chain_behind};
ghost use Rattle.para_lines.specs.Line.{IsAble, on_line};
ghost use Rattle.para_lines.specs.Lines as rule;
ghost use Rattle.para_lines.specs.Seats.{AreSeats};

use crate::boxes::{Boxes, Places};
use crate::edges::LineEdges;
use crate::standing::Standings;
use face_api::{Face, Faces};
use line_place::{Extents, extents};
use std::alloc::{AllocError, Global};
use wm_units::cap;

/// The boxes that stand on the line of these items, the outer before the inner: those round its first item, then those that
/// begin on it. In a paragraph of one item there are none.
#[tactic(auto, using(crate::proofs::LineLaws::none_alone))]
pub(crate) fn boxes_on(
    alloc: Global,
    boxes: &Boxes,
    standings: &Standings,
) -> Result<Places, AllocError>
    requires { All (IsAble (length boxes.now)) standings.now }
    ensures { IfOk result (λ made. made.items ≡ on_line boxes.now [] standings.now) }
{
    let mut places = Vec::new(alloc);
    if boxes.count() == 1 {
        return Ok(places);
    }
    let mut before = None;
    for k in 0..standings.count() {
        let source = standings.at(k).item.source as usize;
        add_fresh(alloc, &mut places, boxes, source, before)?;
        before = Some(source);
    }
    Ok(places)
}

// Adds the boxes round an item that are not round another one, the outer before the inner. What comes from the same item of the
// paragraph stands in the same boxes.
#[tactic(auto, using(crate::proofs::LineLaws::none_fresh))]
fn add_fresh(
    alloc: Global,
    places: &mut Places,
    boxes: &Boxes,
    source: usize,
    other: Option<usize>,
) -> Result<(), AllocError>
    requires source { source < length boxes.now }
    requires other { IfSome other (λ other. other < length boxes.now) }
    ensures { OnOk result (places.new.items ≡ places.old.items ++ fresh (chain_at boxes.now source) (chain_behind boxes.now other)) }
{
    if other != Some(source) {
        let fresh = boxes.apart(alloc, source, other)?;
        add_reversed(places, &fresh)?;
    }
    Ok(())
}

fn add_reversed(places: &mut Places, fresh: &[usize]) -> Result<(), AllocError>
    ensures { OnOk result (places.new.items ≡ places.old.items ++ reverse fresh.now) }
{
    let mut left = fresh.len();
    while left > 0 {
        left -= 1;
        places.push(fresh[left])?;
    }
    Ok(())
}

/// Writes down at which place of the line's list each of its boxes stands.
pub(crate) fn seat(seats: &mut Places, places: &[usize])
    requires { All (λ place. place < length seats.old.items) places.now }
    ensures seats { AreSeats places.now seats.new.items }
    ensures same { length seats.new.items ≡ length seats.old.items }
{
    let mut left = places.len();
    while left > 0 {
        left -= 1;
        seats[places[left]] = left;
    }
}

/// The extents of a box in this style by its used face.
pub(crate) fn extents_in(faces: &Faces, edges: &LineEdges, raised: i64) -> Extents
    requires { unsigned_abs raised ≤ 2 ^ 32 }
    ensures are { result ≡ rule.extents_in (faces_of ⟦<dyn Face as Face>⟧ faces.now) edges.now.container.now edges.now.style.now raised }
    ensures near { AreNear result }
{
    let style = edges.style;
    let container = edges.container;
    let metrics = faces.used(style.face).metrics();
    extents(
        metrics.ascent,
        metrics.descent,
        style,
        container.style.baseline(),
        raised,
    )
}

// How far what has this length of its own is raised inside boxes with these lengths.
pub(crate) fn raised(shift: i64, shifts: i64) -> i64
    requires shift { unsigned_abs shift ≤ 2 ^ 60 }
    requires shifts { unsigned_abs shifts ≤ 2 ^ 60 }
    ensures value { result ≡ cap (shift +ℤ shifts) }
    ensures near { unsigned_abs result ≤ 2 ^ 32 }
{
    cap(shift + shifts)
}
