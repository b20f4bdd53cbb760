//! The parts of one text of a paragraph: its units, its combined runs, and the bidi controls between them (CSS Writing
//! Modes 4, 5.1 and 9.1).

ghost use Rattle.std.specs.Prelude.{◌≡◌, ◌≤◌, ◌<◌, ◌+◌, ◌-◌, ◌^◌, ◌++◌, [], ◌∷◌, not, length, map, All, IfOk, IfSome, OnOk};
ghost use Rattle.face_api.specs.Faces.{faces_of};
ghost use Rattle.cluster_units.specs.Laws.{AreInOrder, IsUnitIn};
ghost use Rattle.cluster_units.specs.Plain.{character_joins, character_unit, is_plain};
ghost use Rattle.cluster_units.specs.Unit.{is_vertical};
ghost use Rattle.style_types.specs.Style.{is_upright};
ghost use Rattle.para_prepare.specs.Content.{text_parts};
ghost use Rattle.para_prepare.specs.Limits.{IsFontSize};
ghost use Rattle.para_prepare.specs.Facts.{IsFontSize-prop};
ghost use Rattle.para_prepare.specs.Parts as spec;
ghost use Rattle.para_prepare.specs.Text as texts;
ghost use Rattle.para_prepare.specs.Text.{letter_parts};
ghost use Rattle.para_prepare.specs.Views.{IsSound, IsUnitOf, letters_at, parts_of, span_of, stored_by, stored_control, stored_letter, stored_run};

use crate::inside::inside;
use crate::kept::text_of;
use crate::latin::are_latin;
use crate::letter::Letter;
use crate::parts::{Part, Parts, Span, class_in};
use crate::place::Place;
use crate::resources::Resources;
use cluster_units::laws::plain_units_are_of_characters;
use cluster_units::{
    Unit, character_joins, character_unit, combines_none, is_plain_character, units,
};
use face_api::Face;
use fragment_types::UnitKind;
use std::alloc::{AllocError, Global};
use style_types::{Style, TextOrientation};
use wm_modes::WritingMode;

/// A text of a paragraph: where its kept characters stand, its node, its style, whose font size is from 0 to 65,536, and whether
/// it is set upright.
#[derive(Clone, Copy)]
pub(crate) struct Text<'b> {
    pub(crate) place: Place<'b>,
    pub(crate) node: u32,
    pub(crate) style: &'b Style,
    pub(crate) upright: bool,

    ghost is_upright: { upright ≡ spec.sets_upright style.now },
    ghost size: { IsFontSize style.now } by { IsFontSize-prop style.now },
}

/// Adds the parts of a text.
pub(crate) fn add_text(
    alloc: Global,
    parts: &mut Parts,
    text: Text,
    resources: Resources,
) -> Result<(), AllocError>
    requires sound { All (IsSound (length text.place.letters.now)) parts.old.items }
    ensures parts { OnOk result (parts_of text.entry.place.letters.now parts.new.items ≡ parts_of text.entry.place.letters.now parts.old.items ++ text_parts (faces_of ⟦<dyn Face as Face>⟧ resources.entry.faces.now) text.entry.place.source text.entry.node text.entry.style.now (letters_at text.entry.place.letters.now text.entry.place.span)) }
    ensures sound { OnOk result (All (IsSound (length text.entry.place.letters.now)) parts.new.items) }
    ensures count { OnOk result (length parts.new.items ≤ length parts.old.items + (text.entry.place.span.to - text.entry.place.span.from)) }
{
    if stand_alone(
        text.style,
        &text.place.letters[text.place.span.from..text.place.span.to],
    ) {
        plain_units_are_of_characters();
        add_letters(parts, text, resources.faces.used(text.style.face))?;
    } else {
        add_clusters(alloc, parts, text, resources)?;
    }
    Ok(())
}

// Adds the parts of a text in which each character is a unit by itself, but for the bidi controls.
fn add_letters(parts: &mut Parts, text: Text, face: &dyn Face) -> Result<(), AllocError>
    requires sound { All (IsSound (length text.place.letters.now)) parts.old.items }
    ensures parts { OnOk result (parts_of text.entry.place.letters.now parts.new.items ≡ parts_of text.entry.place.letters.now parts.old.items ++ letter_parts (table face.now) text.entry.place.source text.entry.node text.entry.style.now 0 (letters_at text.entry.place.letters.now text.entry.place.span)) }
    ensures sound { OnOk result (All (IsSound (length text.entry.place.letters.now)) parts.new.items) }
    ensures count { OnOk result (length parts.new.items ≤ length parts.old.items + (text.entry.place.span.to - text.entry.place.span.from)) }
{
    plain_units_are_of_characters();
    let own = &text.place.letters[text.place.span.from..text.place.span.to];
    for i in 0..own.len() {
        add_letter(parts, text, own[i], i, face)?;
    }
    Ok(())
}

// Adds the part of one character, which stands at this place of its text: a unit by itself, or a bidi control.
#[inline(always)]
fn add_letter(
    parts: &mut Parts,
    text: Text,
    letter: Letter,
    place: usize,
    face: &dyn Face,
) -> Result<(), AllocError>
    requires place { text.place.span.from + place < 2 ^ 62 }
    requires few { place ≤ 1048576 }
    ensures part { OnOk result (parts.new.items ≡ parts.old.items ++ stored_letter text.entry.place.source text.entry.node (spec.sets_upright text.entry.style.now) text.entry.place.span.from letter (character_unit text.entry.style.now (table face.now) place letter.char) ∷ []) }
    ensures unit { IfSome (character_unit text.entry.style.now (table face.now) place letter.char) (IsUnitIn place (place + 1)) }
{
    let char = letter.char;
    match character_unit(char, place, text.style, face) {
        Some(unit) => parts.push(Part::Unit {
            source: text.place.source,
            node: text.node,
            upright: text.upright,
            unit,
            letters: span_of(text.place.span.from, unit),
        })?,
        None => parts.push(Part::Control {
            char,
            class: class_in(text.upright, char),
        })?,
    }
    Ok(())
}

// Adds the parts of a text that may have units of several characters, and combined runs.
fn add_clusters(
    alloc: Global,
    parts: &mut Parts,
    text: Text,
    resources: Resources,
) -> Result<(), AllocError>
    requires sound { All (IsSound (length text.place.letters.now)) parts.old.items }
    ensures parts { OnOk result (parts_of text.entry.place.letters.now parts.new.items ≡ parts_of text.entry.place.letters.now parts.old.items ++ text_parts (faces_of ⟦<dyn Face as Face>⟧ resources.entry.faces.now) text.entry.place.source text.entry.node text.entry.style.now (letters_at text.entry.place.letters.now text.entry.place.span)) }
    ensures sound { OnOk result (All (IsSound (length text.entry.place.letters.now)) parts.new.items) }
    ensures count { OnOk result (length parts.new.items ≤ length parts.old.items + (text.entry.place.span.to - text.entry.place.span.from)) }
{
    let kept = text_of(
        alloc,
        &text.place.letters[text.place.span.from..text.place.span.to],
    )?;
    let units = units(alloc, &kept, text.style, resources.faces)?;
    add_runs(alloc, parts, text, &units, resources)?;
    Ok(())
}

// Adds the units, the combined runs and the controls of a text that has these units.
fn add_runs(
    alloc: Global,
    parts: &mut Parts,
    text: Text,
    units: &[Unit],
    resources: Resources,
) -> Result<(), AllocError>
    requires { AreInOrder 0 (text.place.span.to - text.place.span.from) units.now }
    ensures { OnOk result (parts.new.items ≡ parts.old.items ++ stored_by (spec.sets_upright text.entry.style.now) (stored_run (faces_of ⟦<dyn Face as Face>⟧ resources.entry.faces.now) text.entry.place.letters.now text.entry.place.source text.entry.node text.entry.style.now text.entry.place.span.from) (letters_at text.entry.place.letters.now text.entry.place.span) 0 units.now) }
{
    let upright = sets_upright(text.style);
    let own = &text.place.letters[text.place.span.from..text.place.span.to];
    let mut at = 0;
    for i in 0..units.len() {
        let unit = units[i];
        add_controls(parts, &own[at..unit.first], upright)?;
        add_run(alloc, parts, text, unit, resources)?;
        at = unit.end;
    }
    add_controls(parts, &own[at..], upright)?;
    Ok(())
}

// Adds the part of a unit or of a combined run.
fn add_run(
    alloc: Global,
    parts: &mut Parts,
    text: Text,
    unit: Unit,
    resources: Resources,
) -> Result<(), AllocError>
    requires { IsUnitOf (text.place.span.to - text.place.span.from) unit }
    ensures { OnOk result (parts.new.items ≡ parts.old.items ++ stored_run (faces_of ⟦<dyn Face as Face>⟧ resources.entry.faces.now) text.entry.place.letters.now text.entry.place.source text.entry.node text.entry.style.now text.entry.place.span.from unit ∷ []) }
{
    let span = span_of(text.place.span.from, unit);
    if unit.kind == UnitKind::Combined {
        let own = &text.place.letters[span.from..span.to];
        parts.push(Part::Combined {
            source: text.place.source,
            node: text.node,
            unit,
            letters: span,
            inside: inside(alloc, own, text.style, resources)?,
        })?;
    } else {
        parts.push(Part::Unit {
            source: text.place.source,
            node: text.node,
            upright: sets_upright(text.style),
            unit,
            letters: span,
        })?;
    }
    Ok(())
}

// Where the characters of a unit stand, in a text whose own begin at this place.
fn span_of(from: usize, unit: Unit) -> Span
    requires end { from + unit.end ≤ 2 ^ 62 }
    requires order { unit.first ≤ unit.end }
    ensures { result ≡ span_of from unit }
{
    Span {
        from: from + unit.first,
        to: from + unit.end,
    }
}

// Adds bidi controls.
fn add_controls(parts: &mut Parts, letters: &[Letter], upright: bool) -> Result<(), AllocError>
    ensures { OnOk result (parts.new.items ≡ parts.old.items ++ map (stored_control upright) letters.now) }
{
    for letter in letters {
        parts.push(Part::Control {
            char: letter.char,
            class: class_in(upright, letter.char),
        })?;
    }
    Ok(())
}

/// Whether in this style each of these characters is a unit by itself, but for the bidi controls.
pub(crate) fn stand_alone(style: &Style, letters: &[Letter]) -> bool
    ensures { result ≡ texts.stand_alone style.now letters.now }
{
    join_none(style, letters) && are_plain(letters)
}

// Whether in this style none of these characters belongs to a run that may be combined, which most styles say of any text.
fn join_none(style: &Style, letters: &[Letter]) -> bool
    ensures { result ≡ texts.join_none style.now letters.now }
{
    combines_none(style) || are_apart(style, letters)
}

// Whether no character is one that joins a run: with `digits` an ASCII digit.
fn are_apart(style: &Style, letters: &[Letter]) -> bool
    ensures { result ≡ texts.are_apart style.now letters.now }
{
    letters.iter().all(
        |letter| -> bool
            ensures { result ≡ not (character_joins style.entry.now letter.now.char) }
        { !character_joins(letter.char, style) },
    )
}

// Whether each is a unit by itself among its like. Latin text is asked for first.
fn are_plain(letters: &[Letter]) -> bool
    ensures { result ≡ texts.are_plain letters.now }
{
    are_latin(letters) || each_is_plain(letters)
}

fn each_is_plain(letters: &[Letter]) -> bool
    ensures { result ≡ texts.are_plain letters.now }
{
    letters.iter().all(
        |letter| -> bool
            ensures { result ≡ is_plain letter.now.char }
        { is_plain_character(letter.char) },
    )
}

/// Is the text of this style set upright (CSS Writing Modes 4, 5.1)?
pub(crate) fn sets_upright(style: &Style) -> bool
    ensures { result ≡ spec.sets_upright style.now }
{
    let is_vertical = matches!(
        style.mode,
        WritingMode::VerticalRl | WritingMode::VerticalLr
    );
    is_vertical && style.orientation == TextOrientation::Upright
}
