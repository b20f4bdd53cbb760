//! What the lines of a paragraph are made from (CSS 2, 9.4.2).

ghost use Rattle.std.specs.Prelude.{◌≡◌, ℕ, ◌<◌, ◌≤◌, [], All, IfOk, IfSome, List, drop, length, map, take};
ghost use Rattle.face_api.specs.Faces.{faces_of};
ghost use Rattle.fragment_types.specs.Fragment.{pieces_of};
ghost use Rattle.fragment_types.specs.Item.{Entry};
ghost use Rattle.para_lines.specs.Boxes.{chain_behind};
ghost use Rattle.para_lines.specs.Conditions.{IsSetting, IsSetting-prop};
ghost use Rattle.para_lines.specs.Line.{IsAble, standing_of};
ghost use Rattle.para_lines.specs.Lines.{chain_of_first, chain_of_last};

use crate::boxes::{Boxes, Places};
use crate::line::{boxes_on, seat};
use crate::paragraph::Container;
use crate::seated::{Seated, Sides};
use crate::seated_items::SeatedItems;
use crate::standing::Standings;
use face_api::{Face, Faces};
use fragment_types::LineFragment;
use line_place::{NoFragments, place_line_with};
use std::alloc::{AllocError, Global};

/// What all lines of a paragraph are made from: its boxes, its container, all its items, and the list that fragments with none inside
/// them share.
#[derive(Clone, Copy)]
pub(crate) struct Setting<'a> {
    pub(crate) boxes: &'a Boxes<'a>,
    pub(crate) container: &'a Container,
    pub(crate) standings: &'a Standings<'a>,
    pub(crate) empty: &'a NoFragments,

    ghost is_setting: { IsSetting boxes.now container.now standings.now } by { IsSetting-prop boxes.now container.now standings.now },
}

impl Setting<'_> {
    ghost use Rattle.para_lines.specs.Setting.{IsPart, IsPlaced};

    /// Places the line of the items from one place up to another. `seats` is a table by box for its use.
    pub(crate) fn line(
        &self,
        alloc: Global,
        faces: &Faces,
        seats: &mut Places,
        from: usize,
        end: usize,
    ) -> Result<LineFragment, AllocError>
        requires seats { length seats.old.items ≡ length self.now.boxes.now }
        requires part { IsPart from end (length self.now.standings.now) }
        ensures same { length seats.new.items ≡ length seats.old.items }
        ensures placed { IfOk result (λ made. IsPlaced self.now (faces_of ⟦<dyn Face as Face>⟧ faces.now) from end made.over made.under (pieces_of made.parts.items)) }
    {
        let standings = self.standings.between(from, end);
        let places = boxes_on(alloc, self.boxes, &standings)?;
        seat(seats, &places);
        let seated = Seated {
            boxes: self.boxes,
            container: self.container,
            places: &places,
            seats,
            sides: Sides {
                before: source_before(self.standings, from),
                after: source_at(self.standings, end),
            },
        };
        let boxes = seated.line_boxes(alloc, faces)?;
        let items = SeatedItems::new(seated, standings);
        let frame = items.frame(faces, &boxes);
        let made = place_line_with(alloc, &frame, &items, self.empty)?;
        Ok(made)
    }
}

// What the item before a place comes from.
#[tactic(auto, using(crate::proofs::SettingLaws::last_chain))]
fn source_before(standings: &Standings, place: usize) -> Option<usize>
    requires { place ≤ length standings.now }
    ensures chain { (entries : List Entry) → chain_behind entries result ≡ chain_of_last [] (take place (map (standing_of entries) standings.now)) }
    ensures there { (count : ℕ) → All (IsAble count) standings.now → IfSome result (λ source. source < count) }
{
    if place == 0 {
        None
    } else {
        Some(standings.at(place - 1).item.source as usize)
    }
}

// What the item at a place comes from.
#[tactic(auto, using(crate::proofs::SettingLaws::first_chain, crate::proofs::SettingLaws::none_behind))]
fn source_at(standings: &Standings, place: usize) -> Option<usize>
    requires { place ≤ length standings.now }
    ensures chain { (entries : List Entry) → chain_behind entries result ≡ chain_of_first (drop place (map (standing_of entries) standings.now)) }
    ensures there { (count : ℕ) → All (IsAble count) standings.now → IfSome result (λ source. source < count) }
{
    if place < standings.count() {
        Some(standings.at(place).item.source as usize)
    } else {
        None
    }
}
