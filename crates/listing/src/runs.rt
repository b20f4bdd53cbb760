//! How a run of text is told in a listing.

ghost use Rattle.std.specs.Prelude.{◌≡◌, ◌+◌, ◌≤◌, ◌++◌, ◌∷◌, [], length, codes, IfSome, OnOk, IsErrOf};
ghost use Rattle.io_edge.specs.Edge.{Rose, AppendsFront, AppendsUpTo};
ghost use Rattle.listing.specs.Runs as spec;

use crate::text_standing::TextStanding;
use crate::words::{Line, character, short_character};
use fragment_types::{RunUnit, UnitKind};
use io_edge::{Sink, Waiting, WriteError};
use itoa::Buffer;
use wm_modes::WritingMode;

/// Where the units of a run begin and end in the node's text.
#[derive(Clone, Copy)]
pub(crate) struct Bounds {
    pub(crate) first: u32,
    pub(crate) end: u32,
}

/// The least place at which a unit begins, and the greatest at which one ends.
#[tactic(auto, unfolding(crate::specs::Runs::first_of, crate::specs::Runs::end_of))]
pub(crate) fn bounds_of(units: &[RunUnit]) -> Bounds
    ensures first { result.first ≡ spec.first_of units.now }
    ensures end { result.end ≡ spec.end_of units.now }
{
    if units.is_empty() {
        return Bounds { first: 0, end: 0 };
    }
    let mut bounds = Bounds {
        first: units[0].first(),
        end: units[0].end(),
    };
    for k in 1..units.len() {
        let unit = &units[k];
        bounds = Bounds {
            first: bounds.first.min(unit.first()),
            end: bounds.end.max(unit.end()),
        };
    }
    bounds
}

/// How wide a combined run is.
#[tactic(auto, unfolding(crate::specs::Runs::combined_width))]
pub(crate) fn combined_width(natural: Option<i64>, units: &[RunUnit]) -> i64
    ensures { result ≡ spec.combined_width natural units.now }
{
    let Some(unit) = units.first() else {
        return 0;
    };
    match natural {
        Some(natural) => natural.min(unit.extent()),
        None => unit.extent(),
    }
}

/// How the units stand, where that is told.
pub(crate) fn push_standing(line: &mut Line, standing: TextStanding, form: UnitKind, width: i64)
    requires { length line.old.bytes ≤ 150 }
    ensures bytes { line.new.bytes ≡ line.old.bytes ++ (codes " " ++ spec.standing_word standing form width) }
    ensures longer { length line.new.bytes ≤ length line.old.bytes + 22 }
{
    match standing {
        TextStanding::InMode(mode) => push_form(line, mode, form, width),
        TextStanding::OnFlow => line.push_str(" -"),
    }
}

// How the units stand in this mode.
#[tactic(auto, unfolding(crate::specs::Runs::form_word))]
fn push_form(line: &mut Line, mode: WritingMode, form: UnitKind, width: i64)
    requires { length line.old.bytes ≤ 150 }
    ensures bytes { line.new.bytes ≡ line.old.bytes ++ (codes " " ++ spec.form_word mode form width) }
    ensures longer { length line.new.bytes ≤ length line.old.bytes + 22 }
{
    line.push_str(" ");
    match form {
        UnitKind::Along | UnitKind::Turned => line.push_str(turn_word(mode)),
        UnitKind::Upright => line.push_str("u"),
        UnitKind::Combined => {
            line.push_str("c");
            line.push_str(Buffer::new().format(width));
        }
    }
}

// How units along their line stand on the page.
#[tactic(auto, unfolding(crate::specs::Runs::turn_word))]
fn turn_word(mode: WritingMode) -> &'static str
    ensures word { result.now ≡ spec.turn_word mode }
    ensures short { length result.now ≤ 1 }
{
    match mode {
        WritingMode::HorizontalTb => "h",
        WritingMode::VerticalRl | WritingMode::VerticalLr | WritingMode::SidewaysRl => "s",
        WritingMode::SidewaysLr => "l",
    }
}

/// The characters of the units from line-left, the first behind this sign.
#[inline(never)]
pub(crate) fn put_units<K: Sink>(
    first: u8,
    units: &[RunUnit],
    waiting: &mut Waiting,
    sink: &mut K,
) -> Result<(), WriteError>
    ensures front { AppendsFront (K.held sink.old) (K.held sink.new) (waiting.old ++ spec.units first units.now) }
    ensures waits { OnOk result (AppendsUpTo (K.held sink.old) (K.held sink.new) (waiting.old ++ spec.units first units.now) waiting.new) }
    ensures later { K.faults sink.old ≤ K.faults sink.new }
    ensures fault { IsErrOf result WriteError.WriteFault → Rose (K.faults sink.old) (K.faults sink.new) }
{
    let mut sign = first;
    for unit in units {
        put_unit(sign, unit, waiting, sink)?;
        sign = b',';
    }
    Ok(())
}

// The characters of an entry of a run, the first after this sign. Most entries are one character.
#[inline(always)]
#[tactic(auto, using(crate::proofs::Puts::one_character_put, crate::proofs::Puts::one_character_front))]
fn put_unit<K: Sink>(
    first: u8,
    unit: &RunUnit,
    waiting: &mut Waiting,
    sink: &mut K,
) -> Result<(), WriteError>
    ensures front { AppendsFront (K.held sink.old) (K.held sink.new) (waiting.old ++ spec.glyphs first unit.now.glyphs) }
    ensures waits { OnOk result (AppendsUpTo (K.held sink.old) (K.held sink.new) (waiting.old ++ spec.glyphs first unit.now.glyphs) waiting.new) }
    ensures later { K.faults sink.old ≤ K.faults sink.new }
    ensures fault { IsErrOf result WriteError.WriteFault → Rose (K.faults sink.old) (K.faults sink.new) }
{
    match unit.only_character() {
        Some(c) => put_character(first, c, waiting, sink),
        None => put_glyphs(first, unit, waiting, sink),
    }
}

// The characters of units side by side in one entry of a run, the first after this sign and each further unit after
// `,`.
#[inline(never)]
fn put_glyphs<K: Sink>(
    first: u8,
    unit: &RunUnit,
    waiting: &mut Waiting,
    sink: &mut K,
) -> Result<(), WriteError>
    ensures front { AppendsFront (K.held sink.old) (K.held sink.new) (waiting.old ++ spec.glyphs first unit.now.glyphs) }
    ensures waits { OnOk result (AppendsUpTo (K.held sink.old) (K.held sink.new) (waiting.old ++ spec.glyphs first unit.now.glyphs) waiting.new) }
    ensures later { K.faults sink.old ≤ K.faults sink.new }
    ensures fault { IsErrOf result WriteError.WriteFault → Rose (K.faults sink.old) (K.faults sink.new) }
{
    let mut sign = first;
    for place in 0..unit.glyph_count() {
        put_characters(sign, unit.glyph(place), waiting, sink)?;
        sign = b',';
    }
    Ok(())
}

// The characters of one unit, the first after this sign and each further one after `+`.
fn put_characters<K: Sink>(
    first: u8,
    characters: &[char],
    waiting: &mut Waiting,
    sink: &mut K,
) -> Result<(), WriteError>
    ensures front { AppendsFront (K.held sink.old) (K.held sink.new) (waiting.old ++ spec.characters first characters.now) }
    ensures waits { OnOk result (AppendsUpTo (K.held sink.old) (K.held sink.new) (waiting.old ++ spec.characters first characters.now) waiting.new) }
    ensures later { K.faults sink.old ≤ K.faults sink.new }
    ensures fault { IsErrOf result WriteError.WriteFault → Rose (K.faults sink.old) (K.faults sink.new) }
{
    let mut sign = first;
    for c in characters {
        put_character(sign, *c, waiting, sink)?;
        sign = b'+';
    }
    Ok(())
}

// A code point behind a sign. Most have four digits.
#[inline(always)]
fn put_character<K: Sink>(
    sign: u8,
    c: char,
    waiting: &mut Waiting,
    sink: &mut K,
) -> Result<(), WriteError>
    ensures front { AppendsFront (K.held sink.old) (K.held sink.new) (waiting.old ++ spec.character sign c) }
    ensures waits { OnOk result (AppendsUpTo (K.held sink.old) (K.held sink.new) (waiting.old ++ spec.character sign c) waiting.new) }
    ensures later { K.faults sink.old ≤ K.faults sink.new }
    ensures fault { IsErrOf result WriteError.WriteFault → Rose (K.faults sink.old) (K.faults sink.new) }
{
    let number = u32::from(c);
    if number < 0x1_0000 {
        waiting.put(&short_character(sign, number), sink)
    } else {
        waiting.put(character(sign, c).as_slice(), sink)
    }
}
