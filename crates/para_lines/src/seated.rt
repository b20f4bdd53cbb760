//! What the items and the boxes of a line are made from (CSS 2, 9.4.2 and 10.8.1).

ghost use Rattle.std.specs.Prelude.{◌≡◌, ◌<◌, ◌≤◌, ◌^◌, ◌&&◌, true, not, All, IfOk, IfSome, List, Option, length, map, option_map, unsigned_abs};
ghost use Rattle.face_api.specs.Faces.{faces_of};
ghost use Rattle.face_api.specs.Table.{Table};
ghost use Rattle.style_types.specs.Style.{IsBounded};
ghost use Rattle.line_place.specs.Reach.{AreNear};
ghost use Rattle.para_lines.specs.Around.{box_at, has};
ghost use Rattle.para_lines.specs.Edges.{raised_in};
ghost use Rattle.para_lines.specs.Boxes.{chain_behind};
ghost use Rattle.para_lines.specs.Lines as rule;
ghost use Rattle.para_lines.specs.Seats.{IsOnLine, IsOnLine-prop, IsSeated, IsSeated-prop};

use crate::boxes::Boxes;
use crate::edges::LineEdges;
use crate::line::{extents_in, raised};
use crate::paragraph::Container;
use face_api::{Face, Faces};
use line_place::{Extents, LineBox, LineBoxes};
use std::alloc::{AllocError, Global};
use style_types::Style;
use wm_modes::FlowSide;

/// What the items on both sides of a line come from.
#[derive(Clone, Copy)]
pub(crate) struct Sides {
    pub(crate) before: Option<usize>,
    pub(crate) after: Option<usize>,
}

/// What a line's items and boxes are made from: the boxes of the paragraph and its container, the places of those that stand on
/// the line, a table by box of their places in this list, and what stands on both sides of it.
#[derive(Clone, Copy)]
pub(crate) struct Seated<'a> {
    pub(crate) boxes: &'a Boxes<'a>,
    pub(crate) container: &'a Container,
    pub(crate) places: &'a [usize],
    pub(crate) seats: &'a [usize],
    pub(crate) sides: Sides,

    ghost is_seated: { IsSeated boxes.now container.now places.now seats.now sides.before sides.after } by { IsSeated-prop boxes.now container.now places.now seats.now sides.before sides.after },
}

impl Seated<'_> {
    ghost use Rattle.para_lines.specs.Line.{box_on};

    /// The place of a box in the line's list.
    #[inline(always)]
    pub(crate) fn seat_of(&self, inside: Option<usize>) -> Option<usize>
        requires { IfSome inside (λ box. has self.now.places.now box ≡ true) }
        ensures { result ≡ option_map (rule.place_in self.now.places.now) inside }
    {
        match inside {
            Some(place) => Some(self.seats[place]),
            None => None,
        }
    }

    /// The boxes of the line.
    pub(crate) fn line_boxes(&self, alloc: Global, faces: &Faces) -> Result<LineBoxes, AllocError>
        ensures are { IfOk result (λ made. made.items ≡ map (box_on self.now (faces_of ⟦<dyn Face as Face>⟧ faces.now)) self.now.places.now) }
        ensures near { IfOk result (λ made. All (λ b. AreNear b.extents) made.items) }
    {
        let mut made = Vec::with_capacity(alloc, self.places.len())?;
        for k in 0..self.places.len() {
            let own = PlacedBox {
                seated: &*self,
                place: self.places[k],
            };
            made.push(own.line_box(faces))?;
        }
        Ok(made)
    }
}

// An inline box on a line.
#[derive(Clone, Copy)]
struct PlacedBox<'a> {
    seated: &'a Seated<'a>,
    place: usize,

    ghost on_line: { IsOnLine seated.now.boxes.now seated.now.places.now place } by { IsOnLine-prop seated.now.boxes.now seated.now.places.now place },
}

impl PlacedBox<'_> {
    ghost use Rattle.para_lines.specs.Line.{box_on};

    // As it stands on the line: its extents, its edges, and whether it begins and ends there.
    fn line_box(&self, faces: &Faces) -> LineBox
        ensures is { result ≡ box_on self.now.seated.now (faces_of ⟦<dyn Face as Face>⟧ faces.now) self.now.place }
        ensures near { AreNear result.extents }
    {
        let extents = self.extents(faces);
        let made = self.box_with(extents);
        made
    }

    // Its extents.
    fn extents(&self, faces: &Faces) -> Extents
        ensures are { result ≡ rule.extents_in (faces_of ⟦<dyn Face as Face>⟧ faces.now) self.now.seated.now.container.now (box_at self.now.seated.now.boxes.now self.now.place).style (raised_in self.now.seated.now.boxes.now (box_at self.now.seated.now.boxes.now self.now.place).style.shift (box_at self.now.seated.now.boxes.now self.now.place).outer) }
        ensures near { AreNear result }
    {
        let own = self.seated.boxes.at(self.place);
        let edges = LineEdges {
            container: self.seated.container,
            style: &own.style,
        };
        let raised = self.raised_by(&own.style);
        extents_in(faces, &edges, raised)
    }

    // How far it is raised, in this style.
    fn raised_by(&self, style: &Style) -> i64
        requires { IsBounded style.now }
        ensures value { result ≡ raised_in self.now.seated.now.boxes.now style.now.shift (box_at self.now.seated.now.boxes.now self.now.place).outer }
        ensures near { unsigned_abs result ≤ 2 ^ 32 }
    {
        let round = self.seated.boxes.round(self.place);
        raised(style.shift, round.shifts)
    }

    // The box with these extents.
    fn box_with(&self, extents: Extents) -> LineBox
        ensures is { (tables : List (Option Table)) → extents ≡ rule.extents_in tables self.now.seated.now.container.now (box_at self.now.seated.now.boxes.now self.now.place).style (raised_in self.now.seated.now.boxes.now (box_at self.now.seated.now.boxes.now self.now.place).style.shift (box_at self.now.seated.now.boxes.now self.now.place).outer) → result ≡ box_on self.now.seated.now tables self.now.place }
        ensures extents { result.extents ≡ extents }
    {
        let own = self.seated.boxes.at(self.place);
        let round = self.seated.boxes.round(self.place);
        let edges = LineEdges {
            container: self.seated.container,
            style: &own.style,
        };
        LineBox {
            node: own.node,
            outer: self.seated.seat_of(round.inside),
            extents,
            dir: own.style.used_direction(),
            left: edges.inner_edge_at(FlowSide::LineLeft),
            right: edges.inner_edge_at(FlowSide::LineRight),
            over: edges.inner_edge_at(FlowSide::LineOver),
            under: edges.inner_edge_at(FlowSide::LineUnder),
            left_margin: edges.margin_at(FlowSide::LineLeft),
            right_margin: edges.margin_at(FlowSide::LineRight),
            first: self.has_edge(own.opens, self.seated.sides.before),
            last: self.has_edge(own.closes, self.seated.sides.after),
        }
    }

    // Whether its edges stand on the line: not where it stands round the item beyond them too.
    fn has_edge(&self, edges: bool, beyond: Option<usize>) -> bool
        requires { IfSome beyond (λ other. other < length self.now.seated.now.boxes.now) }
        ensures { result ≡ (edges && not (has (chain_behind self.now.seated.now.boxes.now beyond) self.now.place)) }
    {
        edges && !self.seated.boxes.stands_round(self.place, beyond)
    }
}
