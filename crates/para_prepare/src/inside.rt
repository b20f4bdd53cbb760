//! The inside of a combined run (CSS Writing Modes 4, 9.1): a bidi paragraph of its own, whose units stand in visual order.

ghost use Rattle.std.specs.Prelude.{◌≡◌, ◌≤◌, ◌<◌, ◌≤ℤ◌, ◌++◌, None, false, pos, length, map, All, encode_utf8_all, IfOk, OnOk};
ghost use Rattle.std.specs.List.{slice_range};
ghost use Rattle.bidi_order.specs.Blanks.{reset};
ghost use Rattle.cluster_units.specs.Laws.{AreInOrder};
ghost use Rattle.face_api.specs.Faces.{faces_of};
ghost use Rattle.style_types.specs.declared.style.Combine.TheVariants.{Never};
ghost use Rattle.para_prepare.specs.BidiParagraphs.{begins};
ghost use Rattle.para_prepare.specs.Facts.{AreInOrder-prop, all_units-prop};
ghost use Rattle.para_prepare.specs.Glyph.{last_class};
ghost use Rattle.para_prepare.specs.Inside as spec;
ghost use Rattle.para_prepare.specs.Inside.{inside, inside_by, inside_characters, seen_at};
ghost use Rattle.para_prepare.specs.Kept.{chars_of};
ghost use Rattle.para_prepare.specs.Parts.{control_of, of_unit, parts_by};
ghost use Rattle.para_prepare.specs.Standing.{levels_of, standings_by};
ghost use Rattle.para_prepare.specs.Views.{IsUnitOf};

use crate::bidi_text::{BidiText, Character, Role, put_unit};
use crate::classes::last_class;
use crate::items::glyph;
use crate::kept::text_of;
use crate::letter::Letter;
use crate::parts::class_in;
use crate::resources::Resources;
use crate::standing::{Standing, Standings, aparts_of, levels_of, stand};
use crate::text::sets_upright;
use bidi_explicit::{ClassList, LevelList};
use bidi_order::{reset, visual_order};
use bumpalo::Bump;
use cluster_units::{Unit, units};
use face_api::Face;
use fragment_types::Glyphs;
use std::alloc::{AllocError, Global};
use style_types::{Combine, Style};
use wm_chars::BidiClass;
use wm_modes::Direction;

// The characters of a combined run, cut into units, and whether they are set upright.
#[derive(Clone, Copy)]
struct Cut<'b> {
    letters: &'b [Letter],
    units: &'b [Unit],
    upright: bool,

    ghost order: { AreInOrder 0 (length letters.now) units.now } by { AreInOrder-prop 0 (length letters.now) units.now },
    ghost within: { All (IsUnitOf (length letters.now)) units.now } by { all_units-prop (length letters.now) units.now },
}

/// The units inside a combined run of these characters, in visual order. The base level is that of the used direction.
pub(crate) fn inside(
    alloc: Global,
    letters: &[Letter],
    style: &Style,
    resources: Resources,
) -> Result<Glyphs, AllocError>
    requires bytes { length (encode_utf8_all (chars_of letters.now)) ≤ 1048576 }
    requires low { pos 0 ≤ℤ style.now.font_size }
    requires high { style.now.font_size ≤ℤ pos 65536 }
    ensures { IfOk result (λ glyphs. glyphs ≡ inside (faces_of ⟦<dyn Face as Face>⟧ resources.entry.faces.now) style.now letters.now) }
{
    let text = text_of(alloc, letters)?;
    let units = units(alloc, &text, &uncombined(style), resources.faces)?;
    let base = level_of(style.used_direction());
    let cut = Cut {
        letters,
        units: &units,
        upright: sets_upright(style),
    };
    let glyphs = in_visual_order(alloc, resources.arena, cut, base)?;
    Ok(glyphs)
}

// This style, by which no units are combined.
fn uncombined(style: &Style) -> Style
    ensures { result ≡ record style.now { combine = Never } }
{
    Style {
        combine: Combine::Never,
        ..*style
    }
}

fn level_of(dir: Direction) -> u8
    ensures is { result ≡ spec.level_of dir }
    ensures low { result ≤ 1 }
{
    match dir {
        Direction::Ltr => 0,
        Direction::Rtl => 1,
    }
}

// What is seen of these units of a text, which is a bidi paragraph with this base level, in visual order. L1 and L2 act on
// them as on those of a line.
fn in_visual_order(alloc: Global, arena: &Bump, cut: Cut, base: u8) -> Result<Glyphs, AllocError>
    requires { base ≤ 1 }
    ensures { IfOk result (λ glyphs. glyphs ≡ inside_by base (parts_by cut.entry.upright (of_unit 0 0 cut.entry.upright) cut.entry.letters.now 0 cut.entry.units.now)) }
{
    let standings = unit_standings(alloc, arena, cut, base)?;
    let classes = classes_of(alloc, cut)?;
    let levels = line_levels(alloc, &standings, &classes, base)?;
    let aparts = aparts_of(alloc, &standings)?;
    let glyphs = seen_in_order(alloc, cut, &levels, &aparts)?;
    Ok(glyphs)
}

// How these units stand in the bidi paragraph that they make.
fn unit_standings<'a>(
    alloc: Global,
    arena: &'a Bump,
    cut: Cut,
    base: u8,
) -> Result<Standings<'a>, AllocError>
    requires { base ≤ 1 }
    ensures standings { IfOk result (λ out. out.items ≡ standings_by base false None (inside_characters (parts_by cut.entry.upright (of_unit 0 0 cut.entry.upright) cut.entry.letters.now 0 cut.entry.units.now)) (levels_of base (inside_characters (parts_by cut.entry.upright (of_unit 0 0 cut.entry.upright) cut.entry.letters.now 0 cut.entry.units.now)))) }
    ensures count { IfOk result (λ out. length out.items ≡ length cut.entry.units.now) }
{
    let text = text_in(arena, cut)?;
    let mut standings = Vec::new(arena);
    stand(alloc, &mut standings, Some(base), &text)?;
    Ok(standings)
}

// The levels of units that stand so, after L1.
fn line_levels(
    alloc: Global,
    standings: &[Standing],
    classes: &[BidiClass],
    base: u8,
) -> Result<LevelList, AllocError>
    requires { length classes.now ≡ length standings.now }
    ensures levels { IfOk result (λ levels. levels.items ≡ reset base (map (λ s. s.level) standings.now) classes.now) }
    ensures count { IfOk result (λ levels. length levels.items ≡ length standings.now) }
{
    let mut levels = levels_of(alloc, standings)?;
    reset(&mut levels, classes, base);
    Ok(levels)
}

// The characters of these units and of the bidi controls between them.
fn text_in<'a>(arena: &'a Bump, cut: Cut) -> Result<BidiText<'a>, AllocError>
    ensures text { IfOk result (λ text. text.items ≡ inside_characters (parts_by cut.entry.upright (of_unit 0 0 cut.entry.upright) cut.entry.letters.now 0 cut.entry.units.now)) }
    ensures count { IfOk result (λ text. begins text.items ≡ length cut.entry.units.now) }
{
    let mut text = Vec::with_capacity(arena, cut.letters.len())?;
    let mut at = 0;
    for i in 0..cut.units.len() {
        let unit = cut.units[i];
        put_controls(&mut text, cut.upright, &cut.letters[at..unit.first])?;
        put_unit(&mut text, cut.upright, &cut.letters[unit.first..unit.end])?;
        at = unit.end;
    }
    put_controls(&mut text, cut.upright, &cut.letters[at..])?;
    Ok(text)
}

// Puts bidi controls.
fn put_controls(
    text: &mut BidiText<'_>,
    upright: bool,
    controls: &[Letter],
) -> Result<(), AllocError>
    ensures { OnOk result (text.new.items ≡ text.old.items ++ inside_characters (map (control_of upright) controls.now)) }
{
    for letter in controls {
        text.push(Character {
            char: letter.char,
            class: class_in(upright, letter.char),
            role: Role::Divides,
        })?;
    }
    Ok(())
}

// The classes by which L1 takes these units.
fn classes_of(alloc: Global, cut: Cut) -> Result<ClassList, AllocError>
    ensures { IfOk result (λ classes. classes.items ≡ map (λ u. last_class cut.entry.upright (slice_range cut.entry.letters.now u.first u.end)) cut.entry.units.now) }
{
    let mut classes = Vec::with_capacity(alloc, cut.units.len())?;
    for unit in cut.units {
        classes.push(last_class(cut.upright, &cut.letters[unit.first..unit.end]))?;
    }
    Ok(classes)
}

// What is seen of these units in visual order, where they have these levels and these levels part them.
fn seen_in_order(
    alloc: Global,
    cut: Cut,
    levels: &[u8],
    aparts: &[Option<u8>],
) -> Result<Glyphs, AllocError>
    requires levels { length levels.now ≡ length cut.units.now }
    requires aparts { length aparts.now ≡ length cut.units.now }
    ensures { IfOk result (λ glyphs. glyphs ≡ spec.seen_in_order levels.now aparts.now (map (λ u. slice_range cut.entry.letters.now u.first u.end) cut.entry.units.now)) }
{
    let order = visual_order(alloc, levels, aparts)?;
    let glyphs = glyphs_of(alloc, cut, levels, &order)?;
    Ok(glyphs)
}

// What is seen of these units in this order.
fn glyphs_of(alloc: Global, cut: Cut, levels: &[u8], order: &[usize]) -> Result<Glyphs, AllocError>
    requires levels { length levels.now ≡ length cut.units.now }
    requires order { All (λ k. k < length cut.units.now) order.now }
    ensures { IfOk result (λ glyphs. glyphs ≡ seen_at levels.now (map (λ u. slice_range cut.entry.letters.now u.first u.end) cut.entry.units.now) order.now) }
{
    let mut seen = Vec::with_capacity(alloc, order.len())?;
    for i in 0..order.len() {
        let place = order[i];
        let unit = cut.units[place];
        seen.push(glyph(alloc, levels[place], &cut.letters[unit.first..unit.end])?)?;
    }
    Glyphs::many(alloc, seen)
}
