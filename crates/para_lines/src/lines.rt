//! The lines of a paragraph one under the other (CSS 2, 9.4.2).

ghost use Rattle.std.specs.Prelude.{◌≡◌, ℕ, ◌+◌, ◌*◌, ◌<◌, ◌≤◌, ◌^◌, ◌≤ℤ◌, ◌+ℤ◌, [], All, IfOk, OnOk, length, map, pos, unsigned_abs};
ghost use Rattle.face_api.specs.Faces.{faces_of};
ghost use Rattle.fragment_types.specs.Fragment.{Pieces, before, line as line_kind, piece, pieces_of};
ghost use Rattle.fragment_types.specs.declared.fragment.Fragment.{out-Fragment};
ghost use Rattle.fragment_types.specs.Item.{entries_of};
ghost use Rattle.style_types.specs.Style.{IsBounded};
ghost use Rattle.line_fill.specs.Filling.{Divide};
ghost use Rattle.line_place.specs.Reach.{total};
ghost use Rattle.line_place.specs.Spread.{spread};
ghost use Rattle.line_place.specs.Walk.{followed};
ghost use Rattle.para_prepare.specs.Preparation.{AreFrom, HasBounds as prepared_bounds, atoms_in};
ghost use Rattle.para_lines.specs.Boxes.{HasBounds};
ghost use Rattle.para_lines.specs.Lines as rule;
ghost use Rattle.para_lines.specs.Lines.{extent_of, line_piece, lines_from};
ghost use Rattle.para_lines.specs.Paragraph.{atom_of};
ghost use Rattle.para_lines.specs.Reach.{HoldsWithin, IsInReach, IsLineWithin, IsNearLine, atom_reach};
ghost use Rattle.para_lines.specs.Setting.{IsPart, entries_in, line_between, lines_reach, room_between, standings_in};

use crate::boxes::{Places, inline_boxes};
use crate::filled::ParagraphInput;
use crate::paragraph::{Atom, Container};
use crate::prepared::PreparedLists;
use crate::setting::Setting;
use crate::standing::{Standings, skipped_atoms};
use face_api::{Face, Faces};
use fragment_types::{Fragment, FragmentKind, Fragments, Item, LineFragment};
use line_place::NoFragments;
use para_prepare::Prepared;
use std::alloc::{AllocError, Global};
use std::rc::Rc;
use std::sync::ledger::Ledger;
use wm_modes::FlowRect;
use wm_units::Steps;

/// The lines of a paragraph of these items, prepared so, in this container, one under the other (CSS 2, 9.4.2 and 10.8).
/// `atoms` are its inline-blocks in order, laid out; the lengths of all of them, without their signs, come to at most 2^57 units
/// of 1/64 px. Counts one step, and none where memory runs out before lines are filled. Lines stand in coordinates of the
/// container's content area, and each lies within 2^60 of its block-start edge.
#[tactic(auto, using(crate::proofs::PreparedLaws::prepared_near, crate::proofs::PreparedLaws::sources_there))]
pub fn paragraph_lines<L: Ledger>(
    alloc: Global,
    items: &[Item],
    prepared: &Prepared,
    container: &Container,
    atoms: &[Atom],
    faces: &Faces,
    arranged: &mut Steps<L>,
) -> Result<Fragments, AllocError>
    requires count { length items.now ≤ 2 ^ 20 }
    requires bounds { All HasBounds (entries_of items.now) }
    requires few { length prepared.now.items ≤ 2 ^ 21 }
    requires sources { AreFrom 0 (length items.now) prepared.now.items }
    requires lengths { All (λ item. prepared_bounds item.what) prepared.now.items }
    requires style { IsBounded container.now.style }
    requires low { pos 0 ≤ℤ container.now.size }
    requires high { container.now.size ≤ℤ pos (2 ^ 32) }
    requires atoms { atoms_in prepared.now.items ≤ length atoms.now }
    requires reach { total atom_reach (map atom_of atoms.now) ≤ 2 ^ 57 }
    ensures ticks { OnOk result (arranged.new ≡ arranged.old + 1) }
    ensures most { (arranged.old ≤ arranged.new) × (arranged.new ≤ arranged.old + 1) }
    ensures lines { IfOk result (λ made. pieces_of made.items ≡ rule.paragraph_lines (faces_of ⟦<dyn Face as Face>⟧ faces.now) container.now (entries_of items.now) prepared.now (map atom_of atoms.now)) }
    ensures near { IfOk result (λ made. All IsNearLine made.items) }
    ensures spread { IfOk result (λ made. (each most : ℕ) → All (IsInReach each most) (map atom_of atoms.now) → spread (pieces_of made.items) ≤ length items.now * (5 * 2 ^ 39) + length prepared.now.items * 2 ^ 36 + atoms_in prepared.now.items * (16 * each + 2 ^ 38) + most) }
{
    let boxes = inline_boxes(alloc, items)?;
    let lists = PreparedLists::of(prepared);
    let skipped = skipped_atoms(alloc, lists.items, atoms)?;
    let standings = Standings::of(&lists, atoms, &skipped);
    let input = ParagraphInput {
        boxes: &boxes,
        lists,
        container,
        atoms,
    };
    let lines = input.filled(alloc, &standings, arranged)?;
    let empty = NoFragments::new(alloc)?;
    let setting = Setting {
        boxes: &boxes,
        container,
        standings: &standings,
        empty: &empty,
    };
    let made = stacked(alloc, &setting, faces, lines.ends())?;
    Ok(made)
}

// The lines that end at these places, one under the other.
fn stacked(
    alloc: Global,
    setting: &Setting,
    faces: &Faces,
    ends: &[usize],
) -> Result<Fragments, AllocError>
    requires { Divide 0 (length setting.now.standings.now) ends.now }
    ensures lines { IfOk result (λ made. pieces_of made.items ≡ lines_from (faces_of ⟦<dyn Face as Face>⟧ faces.now) setting.now.container.now (entries_in setting.now) 0 0 (pos 0) [] (standings_in setting.now) ends.now) }
    ensures near { IfOk result (λ made. All IsNearLine made.items) }
    ensures spread { IfOk result (λ made. (most : ℕ) → All (HoldsWithin most) (standings_in setting.now) → spread (pieces_of made.items) ≤ lines_reach (length setting.now.boxes.now) (standings_in setting.now) + most) }
{
    let mut stack = LineStack {
        seats: vec![in alloc; 0; setting.boxes.count()]?,
        from: 0,
        block: 0,
        made: Vec::with_capacity(alloc, ends.len())?,
    };
    for end in ends {
        stack.add(alloc, setting, faces, *end)?;
    }
    let LineStack { made, .. } = stack;
    Ok(made)
}

// Lines one under the other.
#[derive(Drop)]
struct LineStack {
    // A table by box for the use of each line.
    seats: Places,
    // The place behind the last item on them.
    from: usize,
    // How far they reach from the block-start edge of the first.
    block: i64,
    made: Fragments,
}

impl LineStack {
    // One line more, of the items up to a place.
    fn add(
        &mut self,
        alloc: Global,
        setting: &Setting,
        faces: &Faces,
        end: usize,
    ) -> Result<(), AllocError>
        requires seats { length self.old.seats.items ≡ length setting.now.boxes.now }
        requires part { IsPart self.old.from end (length setting.now.standings.now) }
        requires block { unsigned_abs self.old.block + 2 * (2 ^ 34 + room_between (standings_in setting.now) self.old.from end) ≤ 2 ^ 60 }
        ensures seats { OnOk result (length self.new.seats.items ≡ length self.old.seats.items) }
        ensures from { OnOk result (self.new.from ≡ end) }
        ensures block { OnOk result (self.new.block ≡ self.old.block +ℤ extent_of (line_between (faces_of ⟦<dyn Face as Face>⟧ faces.now) setting.now.container.now (entries_in setting.now) (standings_in setting.now) self.old.from end)) }
        ensures within { OnOk result (unsigned_abs self.new.block ≤ unsigned_abs self.old.block + 2 * (2 ^ 34 + room_between (standings_in setting.now) self.old.from end)) }
        ensures count { OnOk result (length self.new.made.items ≡ length self.old.made.items + 1) }
        ensures made { OnOk result ((next : Pieces) → followed self.new.made.items next ≡ followed self.old.made.items (line_piece setting.now.container.now (length self.old.made.items) self.old.block (line_between (faces_of ⟦<dyn Face as Face>⟧ faces.now) setting.now.container.now (entries_in setting.now) (standings_in setting.now) self.old.from end) next)) }
        ensures near { OnOk result (All IsNearLine self.old.made.items → All IsNearLine self.new.made.items) }
        ensures spread { OnOk result ((bound most : ℕ) → All (HoldsWithin most) (standings_in setting.now) → unsigned_abs self.old.block + 14 * 2 ^ 36 + 16 * room_between (standings_in setting.now) self.old.from end + length setting.now.boxes.now * (3 * 2 ^ 39) + most ≤ bound → All (IsLineWithin bound) self.old.made.items → All (IsLineWithin bound) self.new.made.items) }
    {
        let line = setting.line(alloc, faces, &mut self.seats, self.from, end)?;
        let extent = line.over + line.under;
        let index = self.made.len();
        self.made.push(line_fragment(alloc, setting.container, index, self.block, line)?)?;
        self.from = end;
        self.block += extent;
        Ok(())
    }
}

// A line as the fragment of this index, so far from the block-start edge.
fn line_fragment(
    alloc: Global,
    container: &Container,
    index: usize,
    block: i64,
    line: LineFragment,
) -> Result<Fragment, AllocError>
    requires over { unsigned_abs line.over ≤ 2 ^ 60 }
    requires under { unsigned_abs line.under ≤ 2 ^ 60 }
    ensures piece { IfOk result (λ made. (next : Pieces) → before made next ≡ piece container.now.name (record { i = pos 0; b = block; inline = container.now.size; block = line.over +ℤ line.under }) (line_kind index line.over container.now.style.mode (rule.baseline container.now)) (pieces_of line.parts.items) next) }
    ensures begins { IfOk result (λ made. (out-Fragment made).rect.b ≡ block) }
    ensures reaches { IfOk result (λ made. (out-Fragment made).rect.block ≡ line.over +ℤ line.under) }
{
    let LineFragment { over, under, parts } = line;
    Ok(Fragment {
        name: container.name,
        rect: FlowRect {
            i: 0,
            b: block,
            inline: container.size,
            block: over + under,
        },
        kind: FragmentKind::Line {
            index,
            base: over,
            mode: container.style.mode,
            baseline: container.style.baseline(),
        },
        children: Rc::new(alloc, parts)?,
    })
}
