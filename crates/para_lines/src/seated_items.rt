//! The items of a line of a paragraph, from which it is placed (CSS 2, 9.4.2 and 10.8.1).

ghost use Rattle.std.specs.Prelude.{◌≡◌, ◌<◌, ◌&&◌, List, length, map, slice_index_or};
ghost use Rattle.face_api.specs.Faces.{faces_of};
ghost use Rattle.fragment_types.specs.Item.{Entry};
ghost use Rattle.line_place.specs.Line.{line_in};
ghost use Rattle.line_place.specs.Reach.{AreNear};
ghost use Rattle.line_place.specs.Runs.{is_form, is_place};
ghost use Rattle.para_lines.specs.Line.{AreSeated, box_on, items_on, line_on, seat_in, standing_of, units_alike};
ghost use Rattle.para_lines.specs.Lines as rule;
ghost use Rattle.para_lines.specs.Standing as definitions;
ghost use Rattle.para_lines.specs.Standing.{plain};

use crate::edges::LineEdges;
use crate::line::extents_in;
use crate::seated::Seated;
use crate::standing::{Standing, Standings};
use crate::text::{line_text, text_in, unit_of};
use face_api::{Face, Faces};
use fragment_types::{RunUnit, UnitKind};
use line_place::{LineBox, LineFrame, LineItem, LineSource, LineText};
use para_prepare::PreparedContent;
use std::alloc::{AllocError, Global};
use std::marker::Model;
use wm_chars::BidiClass;

/// The items of a line, with what they are made from: each stands in boxes of the line.
#[derive(Drop)]
pub(crate) struct SeatedItems<'a> {
    seated: Seated<'a>,
    standings: Standings<'a>,
}

impl<'a> Model for SeatedItems<'a> {
    ghost use Rattle.std.specs.Coded.{codes};
    ghost use Rattle.fragment_types.specs.contracts.fragment.Fragment as fragment;
    ghost use Rattle.para_lines.specs.Line.{AreSeated, ItemsOn};
    ghost use Rattle.para_lines.specs.Seats.{IsSeated-coded};

    ghost Value = { ItemsOn };

    ghost coded = { Prim.hlevel (codes, fragment.the_row.coded, IsSeated-coded) };

    ghost view = { λ own. record { seated = own.seated; standings = own.standings } };

    ghost invariant = { λ own. AreSeated own.seated own.standings };
}

impl LineSource for SeatedItems<'_> {
    ghost items = { items_on };

    #[inline(always)]
    fn count(&self) -> usize {
        self.standings.count()
    }

    #[inline(always)]
    fn item(&self, place: usize) -> LineItem<'_> {
        self.seated.line_item(&self.standings.at(place))
    }

    #[inline(always)]
    fn stand_alike(&self, place: usize, other: usize) -> bool {
        let one = self.standing(place).item;
        let next = self.standing(other).item;
        are_alike(&one.what, &next.what) && self.stand_together(place, other)
    }

    #[inline(always)]
    fn unit(&self, alloc: Global, place: usize) -> Result<RunUnit, AllocError> {
        let made = unit_of(alloc, &self.standing(place))?;
        Ok(made)
    }

    #[inline(always)]
    fn levels(&self) -> Option<&[u8]> {
        Some(self.standings.levels())
    }

    #[inline(always)]
    fn classes(&self) -> Option<&[BidiClass]> {
        Some(self.standings.classes())
    }

    fn is_level_zero(&self) -> bool {
        for place in 0..self.standings.count() {
            if self.standings.at(place).level != 0 {
                return false;
            }
        }
        true
    }

    fn text(&self, alloc: Global) -> Result<Option<LineText>, AllocError> {
        match text_in(self.seated.boxes, &self.standings) {
            Some(text) => {
                let made = line_text(alloc, &self.standings, text)?;
                Ok(Some(made))
            }
            None => Ok(None),
        }
    }
}

impl<'a> SeatedItems<'a> {
    /// These items, with what they are made from.
    pub(crate) fn new(seated: Seated<'a>, standings: Standings<'a>) -> Self
        requires { AreSeated seated standings }
        ensures { result ≡ record { seated = seated.entry; standings = standings.entry } }
    {
        SeatedItems { seated, standings }
    }

    /// What the line is placed in, with these boxes of it.
    pub(crate) fn frame<'b>(&self, faces: &Faces, boxes: &'b [LineBox]) -> LineFrame<'b>
        requires { boxes.now ≡ map (box_on self.now.seated (faces_of ⟦<dyn Face as Face>⟧ faces.now)) self.now.seated.places.now }
        ensures line { line_in result (items_on self.now) ≡ line_on (faces_of ⟦<dyn Face as Face>⟧ faces.now) self.now }
        ensures boxes { result.boxes.now ≡ boxes.now }
        ensures strut { AreNear result.strut }
    {
        let container = self.seated.container;
        let edges = LineEdges {
            container,
            style: &container.style,
        };
        LineFrame {
            base: first_base(&self.standings),
            align: container.style.align,
            available: container.size,
            strut: extents_in(faces, &edges, 0),
            boxes,
        }
    }

    // Whether the items at two places stand inside the same box. Those that come from one item of the paragraph do.
    #[inline(always)]
    #[tactic(auto, using(crate::proofs::LineLaws::in_one_place))]
    fn stand_together(&self, place: usize, other: usize) -> bool
        requires place { place < length self.now.standings }
        requires other { other < length self.now.standings }
        ensures { (d : definitions.Standing) → result ≡ is_place (seat_in self.now (slice_index_or self.now.standings place d)) (seat_in self.now (slice_index_or self.now.standings other d)) }
    {
        if self.standing(place).item.source == self.standing(other).item.source {
            true
        } else {
            is_place(self.seat_at(place), self.seat_at(other))
        }
    }

    // The box of the line in which the item at a place stands.
    #[inline(never)]
    fn seat_at(&self, place: usize) -> Option<usize>
        requires { place < length self.now.standings }
        ensures { (d : definitions.Standing) → result ≡ seat_in self.now (slice_index_or self.now.standings place d) }
    {
        let own = self.standing(place);
        let round = self.seated.boxes.round(own.item.source as usize);
        self.seated.seat_of(round.inside)
    }

    // An item as it is on its way to the line.
    #[inline(always)]
    fn standing(&self, place: usize) -> Standing<'a>
        requires { place < length self.now.standings }
        ensures { (d : definitions.Standing) → plain result ≡ slice_index_or self.now.standings place d }
    {
        self.standings.at(place)
    }
}

fn is_place(one: Option<usize>, other: Option<usize>) -> bool
    ensures { result ≡ is_place one other }
{
    one == other
}

// Units of one text node and one form.
#[inline(always)]
fn are_alike(one: &PreparedContent, other: &PreparedContent) -> bool
    ensures { result ≡ units_alike one.now other.now }
{
    match (one, other) {
        (
            PreparedContent::Unit { node, form, .. },
            PreparedContent::Unit {
                node: other_node,
                form: other_form,
                ..
            },
        ) => *node == *other_node && is_form(*form, *other_form),
        _ => false,
    }
}

fn is_form(one: UnitKind, other: UnitKind) -> bool
    ensures { result ≡ is_form one other }
{
    one == other
}

// The base level of the bidi paragraph of the first of these items.
#[tactic(auto, using(crate::proofs::StandLaws::base_first, crate::proofs::StandLaws::no_base))]
fn first_base(standings: &Standings) -> u8
    ensures { (entries : List Entry) → result ≡ rule.first_base (map (standing_of entries) standings.now) }
{
    if standings.count() == 0 {
        0
    } else {
        standings.at(0).base
    }
}
