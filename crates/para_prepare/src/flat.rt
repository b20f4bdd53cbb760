//! A paragraph in which nothing asks for a level but 0 (UAX 9), as most are: its items as they come, without the bidi
//! algorithm.

ghost use Rattle.std.specs.Prelude.{◌≡◌, ◌<◌, ◌≤◌, ◌^◌, ◌+◌, ◌-◌, ◌&&◌, ℕ, [], ◌∷◌, true, Bool, length, map, All, encode_utf8_all, IfOk, OnOk};
ghost use Rattle.std.specs.List.{list_all};
ghost use Rattle.bidi_resolve.specs.Paragraph as paragraph;
ghost use Rattle.face_api.specs.Faces.{faces_of};
ghost use Rattle.fragment_types.specs.Item.{entry_of, entries_of};
ghost use Rattle.cluster_units.specs.Laws.{AreInOrder};
ghost use Rattle.para_prepare.specs.Content as content;
ghost use Rattle.para_prepare.specs.Content.{raw_of, text_parts};
ghost use Rattle.para_prepare.specs.Flat as spec;
ghost use Rattle.para_prepare.specs.Flat.{HasRoom, HasRunBounds, flat_of, grown, nothing};
ghost use Rattle.para_prepare.specs.Glyph.{last_class};
ghost use Rattle.para_prepare.specs.Kept.{chars_of};
ghost use Rattle.para_prepare.specs.Limits.{HasFontSize};
ghost use Rattle.para_prepare.specs.Parts as parts;
ghost use Rattle.para_prepare.specs.Parts.{control_of, item, of_unit, opens, parts_by};
ghost use Rattle.para_prepare.specs.Text.{letter_parts};
ghost use Rattle.para_prepare.specs.Views.{HasOneSize, IsPlaced, IsSize, item_parts, letters_at};
ghost use Rattle.wm_modes.specs.declared.mode.Direction.{Direction};

use crate::classes::last_class;
use crate::inside::inside;
use crate::item::PreparedContent;
use crate::items::{combined_content, unit_content};
use crate::kept::{Kept, text_of};
use crate::latin::are_latin;
use crate::letter::Letter;
use crate::lists::FlatLists;
use crate::parts::{Span, class_in};
use crate::place::Place;
use crate::resources::Resources;
use crate::text::{Text, sets_upright, stand_alone};
use crate::white::is_bidi_control;
use cluster_units::laws::plain_units_are_of_characters;
use cluster_units::{Unit, character_unit, is_plain_character, units};
use face_api::Face;
use fragment_types::{Glyphs, Item, UnitKind};
use std::alloc::{AllocError, Global};
use std::slice;
use style_types::UnicodeBidi;
use wm_chars::BidiClass::{B, CS, EN, ES, ET, L, NSM, ON, S, WS};
use wm_chars::{BidiClass, BreakClass};

/// The items of a paragraph with these kept characters.
pub(crate) fn flat_lists<'a>(
    alloc: Global,
    kept: &Kept<'_>,
    resources: Resources<'a>,
) -> Result<FlatLists<'a>, AllocError>
    ensures grown { IfOk result (λ made. flat_of made ≡ grown nothing (content.parts (faces_of ⟦<dyn Face as Face>⟧ resources.entry.faces.now) (entries_of kept.now.items.now))) }
    ensures count { IfOk result (λ made. length made.items.items ≤ length kept.now.letters.items + length kept.now.items.now) }
{
    let items = kept.items;
    let letters: &[Letter] = &kept.letters;
    let ends: &[usize] = &kept.ends;
    // Most items are characters of texts, and the ends of boxes are none.
    let room = letters.len();
    let mut made = FlatLists {
        items: Vec::with_capacity(alloc, room)?,
        classes: Vec::with_capacity(alloc, room)?,
        breaks: Vec::with_capacity(resources.arena, room)?,
        flat: true,
        bare: true,
    };
    let mut from = 0;
    for i in 0..items.len() {
        let to = ends[i];
        let place = Place {
            source: i as u32,
            letters,
            span: Span { from, to },
        };
        made.add_item(alloc, place, &items[i], resources)?;
        from = to;
    }
    Ok(made)
}

/// Whether these items and their characters look as if none asked for a level but 0: so it is tried. Nothing else rests on it.
pub(crate) fn looks_flat(items: &[Item], letters: &[Letter]) -> bool
    ensures { result ≡ (list_all (λ own. spec.puts_none (entry_of own)) items.now && list_all (λ l. spec.reads_left_to_right l.char) letters.now) }
{
    put_none(items) && read_left_to_right(letters)
}

/// Whether these items and their characters look as if each item was one character of a bidi paragraph that they are: so it is
/// tried. Nothing else rests on it.
pub(crate) fn looks_bare(items: &[Item], letters: &[Letter]) -> bool
    ensures { result ≡ (list_all (λ own. spec.stands_bare (entry_of own)) items.now && list_all (λ l. spec.reads_alone l.char) letters.now) }
{
    stand_bare(items) && read_alone(letters)
}

fn stand_bare(items: &[Item]) -> bool
    ensures { result ≡ list_all (λ own. spec.stands_bare (entry_of own)) items.now }
{
    items.iter().all(
        |item| -> bool
            ensures { result ≡ spec.stands_bare (entry_of item.now) }
        { stands_bare(item) },
    )
}

fn stands_bare(item: &Item) -> bool
    ensures { result ≡ spec.stands_bare (entry_of item.now) }
{
    match item {
        Item::Text { .. } | Item::Atom { .. } => true,
        Item::Open { .. } | Item::Close { .. } | Item::Break { .. } => false,
    }
}

fn read_alone(letters: &[Letter]) -> bool
    ensures { result ≡ list_all (λ l. spec.reads_alone l.char) letters.now }
{
    letters.iter().all(
        |letter| -> bool
            ensures { result ≡ spec.reads_alone letter.now.char }
        { reads_alone(letter.char) },
    )
}

// A character that is a unit by itself.
fn reads_alone(c: char) -> bool
    ensures { result ≡ spec.reads_alone c }
{
    is_plain_character(c) && !is_bidi_control(c)
}

// Whether no inline box puts a control round its content.
fn put_none(items: &[Item]) -> bool
    ensures { result ≡ list_all (λ own. spec.puts_none (entry_of own)) items.now }
{
    items.iter().all(
        |item| -> bool
            ensures { result ≡ spec.puts_none (entry_of item.now) }
        { puts_none(item) },
    )
}

fn puts_none(item: &Item) -> bool
    ensures { result ≡ spec.puts_none (entry_of item.now) }
{
    match item {
        Item::Open { style, .. } => style.bidi == UnicodeBidi::Normal,
        Item::Text { .. } | Item::Close { .. } | Item::Atom { .. } | Item::Break { .. } => true,
    }
}

// Whether all characters look so. Latin text is asked for first.
fn read_left_to_right(letters: &[Letter]) -> bool
    ensures { result ≡ list_all (λ l. spec.reads_left_to_right l.char) letters.now }
{
    are_latin(letters) || each_reads_left_to_right(letters)
}

fn each_reads_left_to_right(letters: &[Letter]) -> bool
    ensures { result ≡ list_all (λ l. spec.reads_left_to_right l.char) letters.now }
{
    letters.iter().all(
        |letter| -> bool
            ensures { result ≡ spec.reads_left_to_right letter.now.char }
        { reads_left_to_right(letter.char) },
    )
}

// Scripts whose letters are read from left to right, with what stands between them.
fn reads_left_to_right(c: char) -> bool
    ensures { result ≡ spec.reads_left_to_right c }
{
    if c < '\u{590}' {
        true
    } else if c < '\u{2E80}' {
        matches!(c, '\u{2010}'..='\u{2027}')
    } else {
        c <= '\u{D7FF}' || matches!(c, '\u{FF00}'..='\u{FFEF}')
    }
}

impl FlatLists<'_> {
    // Adds what an item of the paragraph gives.
    #[tactic(auto, using(crate::proofs::FlatLaws::bare_stays, crate::proofs::FlatLaws::bare_ends))]
    fn add_item(
        &mut self,
        alloc: Global,
        place: Place,
        item: &Item,
        resources: Resources,
    ) -> Result<(), AllocError>
        requires { HasFontSize (entry_of item.now) }
        ensures grown { OnOk result (flat_of self.new ≡ grown (flat_of self.old) (item_parts (faces_of ⟦<dyn Face as Face>⟧ resources.entry.faces.now) place.entry.source (entry_of item.now) (letters_at place.entry.letters.now place.entry.span))) }
        ensures count { OnOk result (length self.new.items.items ≤ length self.old.items.items + (place.entry.span.to - place.entry.span.from) + 1) }
    {
        match item {
            Item::Text { node, style, .. } => {
                let text = Text {
                    place,
                    node: *node,
                    style,
                    upright: sets_upright(style),
                };
                self.add_text(alloc, text, resources)
            }
            Item::Open { style, .. } => {
                self.open(style.bidi);
                Ok(())
            }
            Item::Close { .. } => {
                self.bare = false;
                Ok(())
            }
            Item::Atom { name } => self.add(
                place.source,
                BidiClass::ON,
                Some(BreakClass::Ideographic),
                PreparedContent::Atom { name: *name },
            ),
            Item::Break { node } => {
                self.bare = false;
                self.add(
                    place.source,
                    BidiClass::B,
                    None,
                    PreparedContent::Break { node: *node },
                )
            }
        }
    }

    // An inline box begins.
    fn open(&mut self, bidi: UnicodeBidi)
        ensures grown { (dir : Direction) → flat_of self.new ≡ grown (flat_of self.old) (opens bidi dir ∷ []) }
        ensures items { self.new.items.items ≡ self.old.items.items }
    {
        self.flat &= bidi == UnicodeBidi::Normal;
        self.bare = false;
    }

    // Adds the units and combined runs of a text.
    fn add_text(
        &mut self,
        alloc: Global,
        text: Text,
        resources: Resources,
    ) -> Result<(), AllocError>
        ensures grown { OnOk result (flat_of self.new ≡ grown (flat_of self.old) (text_parts (faces_of ⟦<dyn Face as Face>⟧ resources.entry.faces.now) text.entry.place.source text.entry.node text.entry.style.now (letters_at text.entry.place.letters.now text.entry.place.span))) }
        ensures count { OnOk result (length self.new.items.items ≤ length self.old.items.items + length (letters_at text.entry.place.letters.now text.entry.place.span)) }
    {
        if stand_alone(
            text.style,
            &text.place.letters[text.place.span.from..text.place.span.to],
        ) {
            plain_units_are_of_characters();
            self.add_letters(text, resources.faces.used(text.style.face))?;
        } else {
            self.add_clusters(alloc, text, resources)?;
        }
        Ok(())
    }

    // Adds the units of a text in which each character is a unit by itself, but for the bidi controls.
    fn add_letters(&mut self, text: Text, face: &dyn Face) -> Result<(), AllocError>
        ensures grown { OnOk result (flat_of self.new ≡ grown (flat_of self.old) (letter_parts (table face.now) text.entry.place.source text.entry.node text.entry.style.now 0 (letters_at text.entry.place.letters.now text.entry.place.span))) }
        ensures count { OnOk result (length self.new.items.items ≤ length self.old.items.items + length (letters_at text.entry.place.letters.now text.entry.place.span)) }
    {
        let own = &text.place.letters[text.place.span.from..text.place.span.to];
        self.reserve(own.len())?;
        for i in 0..own.len() {
            self.add_letter(text, own[i], i, face);
        }
        Ok(())
    }

    // Adds the unit of one character, which stands at this place of its text, or passes over a bidi control.
    #[inline(always)]
    fn add_letter(&mut self, text: Text, letter: Letter, place: usize, face: &dyn Face)
        requires place { place < 2 ^ 32 }
        requires placed { IsPlaced letter }
        requires room { HasRoom 1 self.old }
        ensures room { (count : ℕ) → HasRoom (count + 1) self.old → HasRoom count self.new }
        ensures grown { flat_of self.new ≡ grown (flat_of self.old) (letter_parts (table face.now) text.entry.place.source text.entry.node text.entry.style.now place (letter ∷ [])) }
    {
        match character_unit(letter.char, place, text.style, face) {
            Some(unit) => self.add_single(text, letter, unit),
            None => self.pass(slice::from_ref(&letter)),
        }
    }

    // Adds a unit of this one character.
    #[inline(always)]
    #[tactic(auto, using(crate::proofs::FlatLaws::bare_stays, crate::proofs::FlatLaws::bare_ends))]
    fn add_single(&mut self, text: Text, letter: Letter, unit: Unit)
        requires placed { IsPlaced letter }
        requires unit { IsSize unit }
        requires room { HasRoom 1 self.old }
        ensures room { (count : ℕ) → HasRoom (count + 1) self.old → HasRoom count self.new }
        ensures grown { flat_of self.new ≡ grown (flat_of self.old) (item (of_unit text.entry.place.source text.entry.node (parts.sets_upright text.entry.style.now) unit (letter ∷ [])) ∷ []) }
    {
        let class = class_in(text.upright, letter.char);
        self.flat &= is_left_to_right(class);
        self.put(
            text.place.source,
            class,
            Some(unit.break_class),
            PreparedContent::Unit {
                form: unit.kind,
                space: letter.char == ' ',
                node: text.node,
                first: letter.place,
                end: letter.place + 1,
                advance: unit.advance,
                glyphs: Glyphs::one(letter.char),
            },
        );
    }

    // Adds the units and combined runs of a text that may have units of several characters.
    fn add_clusters(
        &mut self,
        alloc: Global,
        text: Text,
        resources: Resources,
    ) -> Result<(), AllocError>
        ensures grown { OnOk result (flat_of self.new ≡ grown (flat_of self.old) (text_parts (faces_of ⟦<dyn Face as Face>⟧ resources.entry.faces.now) text.entry.place.source text.entry.node text.entry.style.now (letters_at text.entry.place.letters.now text.entry.place.span))) }
        ensures count { OnOk result (length self.new.items.items ≤ length self.old.items.items + length (letters_at text.entry.place.letters.now text.entry.place.span)) }
    {
        let kept = text_of(
            alloc,
            &text.place.letters[text.place.span.from..text.place.span.to],
        )?;
        let units = units(alloc, &kept, text.style, resources.faces)?;
        self.add_runs(alloc, text, &units, resources)?;
        Ok(())
    }

    // Adds the units and combined runs of a text that comes to these units.
    fn add_runs(
        &mut self,
        alloc: Global,
        text: Text,
        units: &[Unit],
        resources: Resources,
    ) -> Result<(), AllocError>
        requires units { AreInOrder 0 (length (letters_at text.place.letters.now text.place.span)) units.now }
        requires one { All (HasOneSize text.style.now) units.now }
        ensures { OnOk result (flat_of self.new ≡ grown (flat_of self.old) (parts_by (parts.sets_upright text.entry.style.now) (raw_of (faces_of ⟦<dyn Face as Face>⟧ resources.entry.faces.now) text.entry.place.source text.entry.node text.entry.style.now) (letters_at text.entry.place.letters.now text.entry.place.span) 0 units.now)) }
    {
        let own = &text.place.letters[text.place.span.from..text.place.span.to];
        let mut at = 0;
        for i in 0..units.len() {
            let unit = units[i];
            self.pass(&own[at..unit.first]);
            self.add_run(alloc, text, &own[unit.first..unit.end], unit, resources)?;
            at = unit.end;
        }
        self.pass(&own[at..]);
        Ok(())
    }

    // Bidi controls of a text.
    #[tactic(auto, using(crate::proofs::FlatLaws::controls_pass))]
    fn pass(&mut self, controls: &[Letter])
        ensures grown { (upright : Bool) → flat_of self.new ≡ grown (flat_of self.old) (map (control_of upright) controls.now) }
        ensures items { self.new.items.items ≡ self.old.items.items }
        ensures room { (count : ℕ) → HasRoom count self.old → HasRoom count self.new }
    {
        let none = are_none(controls);
        self.flat &= none;
        self.bare &= none;
    }

    // Adds a unit or a combined run of these characters.
    #[tactic(auto, using(crate::proofs::FlatLaws::bare_stays, crate::proofs::FlatLaws::bare_ends))]
    fn add_run(
        &mut self,
        alloc: Global,
        text: Text,
        letters: &[Letter],
        unit: Unit,
        resources: Resources,
    ) -> Result<(), AllocError>
        requires bytes { length (encode_utf8_all (chars_of letters.now)) ≤ 1048576 }
        requires placed { All IsPlaced letters.now }
        requires unit { HasRunBounds unit letters.now }
        ensures { OnOk result (flat_of self.new ≡ grown (flat_of self.old) (item (raw_of (faces_of ⟦<dyn Face as Face>⟧ resources.entry.faces.now) text.entry.place.source text.entry.node text.entry.style.now unit letters.now) ∷ [])) }
    {
        if unit.kind == UnitKind::Combined {
            let glyphs = inside(alloc, letters, text.style, resources)?;
            let what = combined_content(alloc, text.node, unit, letters, glyphs)?;
            self.add(
                text.place.source,
                BidiClass::L,
                Some(unit.break_class),
                what,
            )
        } else {
            self.add_unit(alloc, text, letters, unit)
        }
    }

    // Adds a unit.
    #[tactic(auto, using(crate::proofs::FlatLaws::bare_stays, crate::proofs::FlatLaws::bare_ends))]
    fn add_unit(
        &mut self,
        alloc: Global,
        text: Text,
        letters: &[Letter],
        unit: Unit,
    ) -> Result<(), AllocError>
        requires placed { All IsPlaced letters.now }
        requires unit { IsSize unit }
        ensures { OnOk result (flat_of self.new ≡ grown (flat_of self.old) (item (of_unit text.entry.place.source text.entry.node (parts.sets_upright text.entry.style.now) unit letters.now) ∷ [])) }
    {
        let upright = sets_upright(text.style);
        let class = last_class(upright, letters);
        self.flat &= are_flat(upright, letters, class);
        self.bare &= letters.len() == 1;
        let what = unit_content(alloc, text.node, unit, letters, 0)?;
        self.add(text.place.source, class, Some(unit.break_class), what)
    }
}

// Bidi controls are at no one level, where there are some.
#[tactic(auto, using(crate::proofs::FlatLaws::controls_ask))]
fn are_none(controls: &[Letter]) -> bool
    ensures { (upright : Bool) → result ≡ list_all spec.is_flat (map (control_of upright) controls.now) }
{
    controls.is_empty()
}

// Whether no character of a unit asks for another level; the last one has this class.
#[tactic(auto, using(crate::proofs::FlatLaws::some_flat))]
fn are_flat(upright: bool, letters: &[Letter], class: BidiClass) -> bool
    requires { class ≡ last_class upright letters.now }
    ensures { result ≡ spec.are_flat upright letters.now }
{
    if letters.len() == 1 {
        is_left_to_right(class)
    } else {
        !letters.is_empty() && are_all_flat(upright, letters)
    }
}

// Whether none of these characters asks for another level in a paragraph of base level 0.
fn are_all_flat(upright: bool, letters: &[Letter]) -> bool
    ensures { result ≡ list_all (λ l. paragraph.is_left_to_right (parts.class_in upright l.char)) letters.now }
{
    letters.iter().all(
        |letter| -> bool
            ensures { result ≡ paragraph.is_left_to_right (parts.class_in upright letter.now.char) }
        { is_left_to_right(class_in(upright, letter.char)) },
    )
}

// Whether a class asks for no other level in a paragraph of base level 0.
fn is_left_to_right(class: BidiClass) -> bool
    ensures { result ≡ paragraph.is_left_to_right class }
{
    matches!(class, L | EN | ES | ET | CS | NSM | B | S | WS | ON)
}
