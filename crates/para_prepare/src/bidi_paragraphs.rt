//! The bidi paragraphs of a paragraph, one after the other (CSS Writing Modes 4, 2.4): a line break ends one.

ghost use Rattle.std.specs.Prelude.{◌≡◌, ◌+◌, ◌++◌, ◌≤◌, [], ◌∷◌, ℕ, List, Option, cond, length, map, All, IfOk, IfSome, OnOk};
ghost use Rattle.std.proofs.Props.{props};
ghost use Rattle.para_prepare.specs.BidiParagraphs.{begins, met, wanted};
ghost use Rattle.para_prepare.specs.BidiText.{bidi_texts, character};
ghost use Rattle.para_prepare.specs.declared.bidi_text.Around.{Around};
ghost use Rattle.para_prepare.specs.Boxes.{marked};
ghost use Rattle.para_prepare.specs.Facts.{all_standing-prop};
ghost use Rattle.para_prepare.specs.Parts as parts;
ghost use Rattle.para_prepare.specs.Parts.{raws};
ghost use Rattle.para_prepare.specs.Standing as standing;
ghost use Rattle.para_prepare.specs.Standing.{IsStanding};
ghost use Rattle.para_prepare.specs.Views.{IsPart, part_of, parts_of};
ghost use Rattle.para_prepare.specs.declared.letter.Letter.{Letter};

use crate::bidi_text::{
    Around, BidiText, Character, Role, put_all_after, put_all_before, put_unit,
};
use crate::letter::Letter;
use crate::parts::Part;
use crate::standing::{Standings, stand, stand_before_break};
use bumpalo::Bump;
use std::alloc::{AllocError, Global};
use wm_chars::BidiClass;

/// How the bidi paragraphs of a paragraph are read: the base level that is given, 0 or 1, or none, and what its block
/// container puts round each.
#[derive(Clone, Copy)]
pub(crate) struct Reading {
    pub(crate) given: Option<u8>,
    pub(crate) container: Around,

    ghost base: { IfSome given (λ base. base ≤ 1) } by { Prim.hlevel props },
}

// The text of the bidi paragraph that is being read, the boxes that are open, the innermost last, and the standings of
// the items so far.
#[derive(Drop)]
struct Walk<'a> {
    text: BidiText<'a>,
    opened: Vec<Around, &'a Bump>,
    standings: Standings<'a>,

    ghost bounds: { All IsStanding standings.items } by { all_standing-prop standings.items },
}

/// The standings of the items of a paragraph. The parts that aren't marked are passed over.
#[tactic(auto, unfolding(crate::specs::BidiText::bidi_texts))]
pub(crate) fn standings<'a>(
    alloc: Global,
    arena: &'a Bump,
    reading: Reading,
    letters: &[Letter],
    parts: &[Part],
    marks: &[bool],
) -> Result<Standings<'a>, AllocError>
    requires parts { All (IsPart (length letters.now)) parts.now }
    requires marks { length marks.now ≡ length parts.now }
    ensures standings { IfOk result (λ out. out.items ≡ standing.standings reading.given (bidi_texts reading.container (marked marks.now (parts_of letters.now parts.now)))) }
    ensures count { IfOk result (λ out. length out.items ≡ length (raws (marked marks.now (parts_of letters.now parts.now)))) }
    ensures bounds { IfOk result (λ out. All IsStanding out.items) }
{
    let mut text = Vec::with_capacity(arena, parts.len())?;
    reading.container.put_container_before(&mut text)?;
    let mut walk = Walk {
        text,
        opened: Vec::new(arena),
        standings: Vec::with_capacity(arena, parts.len())?,
    };
    for k in 0..parts.len() {
        walk.take_marked(alloc, reading, letters, &parts[k], marks[k])?;
    }
    walk.finish(alloc, reading)
}

impl<'a> Walk<'a> {
    // Takes the next part where it is marked.
    fn take_marked(
        &mut self,
        alloc: Global,
        reading: Reading,
        letters: &[Letter],
        part: &Part,
        mark: bool,
    ) -> Result<(), AllocError>
        requires { IsPart (length letters.now) part.now }
        ensures wanted { (rest : List parts.Part) → OnOk result (wanted reading.given reading.container self.new.text.items self.new.opened.items self.new.standings.items rest ≡ wanted reading.given reading.container self.old.text.items self.old.opened.items self.old.standings.items (cond mark (part_of letters.now part.now ∷ []) [] ++ rest)) }
        ensures count { OnOk result (met self.new.text.items self.new.standings.items ≡ met self.old.text.items self.old.standings.items + length (raws (cond mark (part_of letters.now part.now ∷ []) []))) }
    {
        if mark {
            self.take(alloc, reading, letters, part)?;
        }
        Ok(())
    }

    // Takes the next part.
    #[tactic(auto, using(crate::proofs::Begins::begins_append, crate::proofs::Begins::begins_unit))]
    fn take(
        &mut self,
        alloc: Global,
        reading: Reading,
        letters: &[Letter],
        part: &Part,
    ) -> Result<(), AllocError>
        requires { IsPart (length letters.now) part.now }
        ensures wanted { (rest : List parts.Part) → OnOk result (wanted reading.given reading.container self.new.text.items self.new.opened.items self.new.standings.items rest ≡ wanted reading.given reading.container self.old.text.items self.old.opened.items self.old.standings.items (part_of letters.now part.now ∷ rest)) }
        ensures count { OnOk result (met self.new.text.items self.new.standings.items ≡ met self.old.text.items self.old.standings.items + length (raws (part_of letters.now part.now ∷ []))) }
    {
        match part {
            Part::Opens(around) => self.begin_box(*around),
            Part::Closes => self.end_box(),
            Part::Control { char, class } => self.put(*char, *class, Role::Divides),
            Part::Unit {
                upright,
                letters: span,
                ..
            } => put_unit(&mut self.text, *upright, &letters[span.from..span.to]),
            Part::Combined { .. } => self.put('\u{FFFC}', BidiClass::L, Role::Begins),
            Part::Atom { .. } => self.put('\u{FFFC}', BidiClass::ON, Role::Begins),
            Part::Break { .. } => self.break_line(alloc, reading),
        }
    }

    // An inline box begins.
    #[tactic(auto, using(crate::proofs::Begins::begins_append, crate::proofs::Begins::begins_before))]
    fn begin_box(&mut self, around: Around) -> Result<(), AllocError>
        ensures wanted { (given : Option ℕ) → (container : Around) → (rest : List parts.Part) → OnOk result (wanted given container self.new.text.items self.new.opened.items self.new.standings.items rest ≡ wanted given container self.old.text.items self.old.opened.items self.old.standings.items (parts.opens around.bidi around.dir ∷ rest)) }
        ensures count { OnOk result (met self.new.text.items self.new.standings.items ≡ met self.old.text.items self.old.standings.items + 0) }
    {
        around.put_before(&mut self.text)?;
        self.opened.push(around)?;
        Ok(())
    }

    // The innermost inline box ends.
    #[tactic(auto, using(crate::proofs::Begins::begins_append, crate::proofs::Begins::begins_after))]
    fn end_box(&mut self) -> Result<(), AllocError>
        ensures wanted { (given : Option ℕ) → (container : Around) → (rest : List parts.Part) → OnOk result (wanted given container self.new.text.items self.new.opened.items self.new.standings.items rest ≡ wanted given container self.old.text.items self.old.opened.items self.old.standings.items (parts.closes ∷ rest)) }
        ensures count { OnOk result (met self.new.text.items self.new.standings.items ≡ met self.old.text.items self.old.standings.items + 0) }
    {
        if let Some(around) = self.opened.pop() {
            around.put_after(&mut self.text)?;
        }
        Ok(())
    }

    // One character.
    fn put(&mut self, char: char, class: BidiClass, role: Role) -> Result<(), AllocError>
        ensures text { OnOk result (self.new.text.items ≡ self.old.text.items ++ character char class role ∷ []) }
        ensures opened { OnOk result (self.new.opened.items ≡ self.old.opened.items) }
        ensures standings { OnOk result (self.new.standings.items ≡ self.old.standings.items) }
    {
        self.text.push(Character { char, class, role })?;
        Ok(())
    }

    // A line break ends the bidi paragraph. What is open is closed before it and opened again after it.
    #[tactic(auto, using(crate::proofs::Begins::begins_append, crate::proofs::Begins::begins_container_after, crate::proofs::Begins::begins_container_before, crate::proofs::Begins::begins_closing_all, crate::proofs::Begins::begins_opening_all))]
    fn break_line(&mut self, alloc: Global, reading: Reading) -> Result<(), AllocError>
        ensures wanted { (source node : ℕ) → (rest : List parts.Part) → OnOk result (wanted reading.given reading.container self.new.text.items self.new.opened.items self.new.standings.items rest ≡ wanted reading.given reading.container self.old.text.items self.old.opened.items self.old.standings.items (parts.item (parts.of_break source node) ∷ rest)) }
        ensures count { OnOk result (met self.new.text.items self.new.standings.items ≡ met self.old.text.items self.old.standings.items + 1) }
    {
        put_all_after(&mut self.text, &self.opened)?;
        reading.container.put_container_after(&mut self.text)?;
        stand_before_break(alloc, &mut self.standings, reading.given, &self.text)?;
        self.text.clear();
        reading.container.put_container_before(&mut self.text)?;
        put_all_before(&mut self.text, &self.opened)?;
        Ok(())
    }

    // The paragraph ends.
    #[tactic(auto, using(crate::proofs::Begins::begins_append, crate::proofs::Begins::begins_container_after))]
    fn finish(self, alloc: Global, reading: Reading) -> Result<Standings<'a>, AllocError>
        ensures wanted { IfOk result (λ out. out.items ≡ wanted reading.given reading.container self.entry.text.items self.entry.opened.items self.entry.standings.items []) }
        ensures count { IfOk result (λ out. length out.items ≡ met self.entry.text.items self.entry.standings.items) }
        ensures bounds { IfOk result (λ out. All IsStanding out.items) }
    {
        let Walk {
            mut text,
            mut standings,
            ..
        } = self;
        reading.container.put_container_after(&mut text)?;
        stand(alloc, &mut standings, reading.given, &text)?;
        Ok(standings)
    }
}
