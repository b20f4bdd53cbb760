//! The items of a paragraph, with what lines need of each.

ghost use Rattle.std.specs.Prelude.{◌≡◌, ◌<◌, ◌≤◌, ◌+◌, ◌++◌, [], ◌∷◌, ℕ, drop, length, map, unwrap_or, All, IfOk, IfSome, OnOk};
ghost use Rattle.wm_chars.specs.Pairs.{mirror};
ghost use Rattle.para_prepare.specs.Glyph as glyphs;
ghost use Rattle.para_prepare.specs.Items as items;
ghost use Rattle.para_prepare.specs.Items.{items_by};
ghost use Rattle.para_prepare.specs.Parts.{raws};
ghost use Rattle.para_prepare.specs.Views.{IsPart, IsPlaced, letters_at, part_of, parts_of};

use crate::item::{CombinedGlyphs, PreparedContent, PreparedItem, PreparedItems};
use crate::letter::Letter;
use crate::parts::Part;
use crate::standing::Standing;
use cluster_units::Unit;
use fragment_types::Glyphs;
use std::alloc::{AllocError, Global};
use wm_chars::mirror;

/// The items of these parts, of which there are as many as standings.
pub(crate) fn prepared_items(
    alloc: Global,
    letters: &[Letter],
    parts: &[Part],
    standings: &[Standing],
) -> Result<PreparedItems, AllocError>
    requires parts { All (IsPart (length letters.now)) parts.now }
    requires letters { All IsPlaced letters.now }
    requires count { length standings.now ≡ length (raws (parts_of letters.now parts.now)) }
    ensures { IfOk result (λ out. out.items ≡ items_by (raws (parts_of letters.now parts.now)) standings.now) }
{
    let mut items = Vec::with_capacity(alloc, standings.len())?;
    for part in parts {
        add_item(alloc, &mut items, letters, part, standings)?;
    }
    Ok(items)
}

// Adds the item of a part, if it is one, by the next standing.
fn add_item(
    alloc: Global,
    items: &mut PreparedItems,
    letters: &[Letter],
    part: &Part,
    standings: &[Standing],
) -> Result<(), AllocError>
    requires part { IsPart (length letters.now) part.now }
    requires letters { All IsPlaced letters.now }
    requires count { length items.old.items + length (raws (part_of letters.now part.now ∷ [])) ≤ length standings.now }
    ensures { OnOk result (items.new.items ≡ items.old.items ++ items_by (raws (part_of letters.now part.now ∷ [])) (drop (length items.old.items) standings.now)) }
{
    let place = items.len();
    match part {
        Part::Opens(_) | Part::Closes | Part::Control { .. } => {}
        Part::Unit {
            source,
            node,
            unit,
            letters: span,
            ..
        } => {
            let own = &letters[span.from..span.to];
            let what = unit_content(alloc, *node, *unit, own, standings[place].level)?;
            push(items, *source, standings[place], what)?;
        }
        Part::Combined {
            source,
            node,
            unit,
            letters: span,
            inside,
        } => {
            let own = &letters[span.from..span.to];
            let what = combined_content(alloc, *node, *unit, own, copied(alloc, inside)?)?;
            push(items, *source, standings[place], what)?;
        }
        Part::Atom { source, name } => {
            let what = PreparedContent::Atom { name: *name };
            push(items, *source, standings[place], what)?;
        }
        Part::Break { source, node } => {
            let what = PreparedContent::Break { node: *node };
            push(items, *source, standings[place], what)?;
        }
    }
    Ok(())
}

#[inline(never)]
fn copied(alloc: Global, inside: &Glyphs) -> Result<Glyphs, AllocError>
    ensures { IfOk result (λ own. own ≡ inside.now) }
{
    let own = inside.copy(alloc)?;
    Ok(own)
}

#[inline(always)]
fn push(
    items: &mut PreparedItems,
    source: u32,
    standing: Standing,
    what: PreparedContent,
) -> Result<(), AllocError>
    ensures { OnOk result (items.new.items ≡ items.old.items ++ (record { source = source; apart = standing.apart; what = what }) ∷ []) }
{
    items.push(PreparedItem {
        source,
        apart: standing.apart,
        what,
    })?;
    Ok(())
}

/// A unit with these characters, as it is seen at this level.
#[inline(always)]
pub(crate) fn unit_content(
    alloc: Global,
    node: u32,
    unit: Unit,
    letters: &[Letter],
    level: u8,
) -> Result<PreparedContent, AllocError>
    requires { All IsPlaced letters.now }
    ensures { IfOk result (λ what. what ≡ items.unit_content level node unit letters.now) }
{
    let glyphs = glyphs_of(alloc, level, letters)?;
    Ok(PreparedContent::Unit {
        form: unit.kind,
        space: is_space(letters),
        node,
        first: first_place(letters),
        end: place_behind(letters),
        advance: unit.advance,
        glyphs,
    })
}

// A combined run of these characters.
pub(crate) fn combined_content(
    alloc: Global,
    node: u32,
    unit: Unit,
    letters: &[Letter],
    inside: Glyphs,
) -> Result<PreparedContent, AllocError>
    requires { All IsPlaced letters.now }
    ensures { IfOk result (λ what. what ≡ items.combined_content node unit letters.now inside) }
{
    Ok(PreparedContent::Combined {
        node,
        first: first_place(letters),
        end: place_behind(letters),
        advance: unit.advance,
        natural: unit.natural,
        glyphs: CombinedGlyphs::new(alloc, inside)?,
    })
}

// The place of the first character in its node's text.
fn first_place(letters: &[Letter]) -> u32
    ensures { result ≡ items.first_place letters.now }
{
    match letters.first() {
        Some(letter) => letter.place,
        None => 0,
    }
}

// The place behind the last one.
fn place_behind(letters: &[Letter]) -> u32
    requires { All IsPlaced letters.now }
    ensures { result ≡ items.place_behind letters.now }
{
    match last_letter(letters) {
        Some(letter) => behind(letter),
        None => 0,
    }
}

/// The last of some characters.
#[tactic(auto, using(crate::proofs::LastLetter::last_is))]
pub(crate) fn last_letter(letters: &[Letter]) -> Option<Letter>
    ensures is { result ≡ glyphs.last_letter letters.now }
    ensures placed { All IsPlaced letters.now → IfSome result IsPlaced }
{
    if letters.is_empty() {
        None
    } else {
        Some(letters[letters.len() - 1])
    }
}

fn behind(letter: Letter) -> u32
    requires { IsPlaced letter }
    ensures { result ≡ letter.place + 1 }
{
    letter.place + 1
}

// Whether this is the single character U+0020.
fn is_space(letters: &[Letter]) -> bool
    ensures { result ≡ items.is_space letters.now }
{
    letters.len() == 1 && letters[0].char == ' '
}

// What is seen of one unit at this level.
fn glyphs_of(alloc: Global, level: u8, letters: &[Letter]) -> Result<Glyphs, AllocError>
    ensures { IfOk result (λ seen. seen ≡ glyphs.glyph level letters.now ∷ []) }
{
    if letters.len() == 1 {
        return Ok(Glyphs::one(mirrored(level, letters[0].char)));
    }
    let mut units = Vec::with_capacity(alloc, 1)?;
    units.push(glyph(alloc, level, letters)?)?;
    Glyphs::many(alloc, units)
}

/// The characters of a unit at this level as they are seen: the first one mirrored on an odd level (UAX 9, L4).
pub(crate) fn glyph(alloc: Global, level: u8, letters: &[Letter]) -> Result<Vec<char>, AllocError>
    ensures { IfOk result (λ seen. seen.items ≡ glyphs.glyph level letters.now) }
{
    let mut seen = chars_of(alloc, letters)?;
    if !seen.is_empty() {
        seen[0] = mirrored(level, seen[0]);
    }
    Ok(seen)
}

fn chars_of(alloc: Global, letters: &[Letter]) -> Result<Vec<char>, AllocError>
    ensures { IfOk result (λ chars. chars.items ≡ map (λ l. l.char) letters.now) }
{
    letters.iter().map(|letter| letter.char).collect(alloc)
}

// What stands for the first character of a unit at this level.
#[inline(always)]
fn mirrored(level: u8, c: char) -> char
    ensures { result ≡ glyphs.mirrored level c }
{
    if level % 2 == 1 { mirror_or(c) } else { c }
}

/// The mirror of a character, or itself.
#[inline(never)]
pub(crate) fn mirror_or(c: char) -> char
    ensures { result ≡ unwrap_or (mirror c) c }
{
    mirror(c).unwrap_or(c)
}
