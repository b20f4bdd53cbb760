//! A paragraph that is prepared for its lines: all of it that hangs on no width.

ghost use Rattle.std.specs.Prelude.{◌≡◌, ◌+◌, ◌≤◌, true, List, length, replicate, All, IfOk, IfSome};
ghost use Rattle.face_api.specs.Faces.{faces_of};
ghost use Rattle.fragment_types.specs.Item.{entries_of};
ghost use Rattle.para_prepare.specs.Boxes.{taking_part};
ghost use Rattle.para_prepare.specs.Flat.{AreAlike, HasBoundsIn, flat_of, grown, is_zero, nothing, puts_nothing};
ghost use Rattle.para_prepare.specs.Limits.{HasFontSize, text_bytes};
ghost use Rattle.para_prepare.specs.Parts as parts;
ghost use Rattle.para_prepare.specs.Parts.{raws};
ghost use Rattle.style_types.specs.declared.style.Style.{Style};
ghost use Rattle.para_prepare.specs.Preparation as spec;
ghost use Rattle.para_prepare.specs.Preparation.{AreFrom, HasBounds, atoms_in, atoms_of, preparation};
ghost use Rattle.para_prepare.specs.Singles.{own_preparation, zero_preparation};
ghost use Rattle.para_prepare.specs.Standing.{IsStanding};
ghost use Rattle.para_prepare.specs.Views.{IsPart, parts_of};
ghost use Rattle.para_prepare.specs.Whole.{AreSound, CanBePrepared, IsPreparedFrom};

use crate::bidi_paragraphs::{Reading, standings};
use crate::bidi_text::Around;
use crate::boxes::taking;
use crate::breaks::{BreakList, breaks, breaks_of};
use crate::classes::classes;
use crate::content::content_of;
use crate::flat::{flat_lists, looks_bare, looks_flat};
use crate::item::{PreparedItem, PreparedItems};
use crate::items::prepared_items;
use crate::kept::{Kept, kept_letters};
use crate::letter::Letter;
use crate::lists::FlatLists;
use crate::parts::Part;
use crate::resources::Resources;
use crate::singles::{at_levels, characters_in};
use crate::standing::{Standing, Standings, bases_of, levels_of};
use bidi_explicit::{ClassList, LevelList, base_of};
use bidi_resolve::laws::left_to_right_has_level_zero;
use bidi_resolve::paragraph_levels;
use bumpalo::Bump;
use face_api::{Face, Faces};
use fragment_types::{Breaking, Item, Items};
use std::alloc::{AllocError, Global};
use std::marker::Model;
use std::sync::ledger::Ledger;
use style_types::{Style, UnicodeBidi};
use wm_chars::BidiClass;
use wm_units::Steps;

/// A paragraph: inline content of a block container of this style (CSS 2, 9.2.1). Its base level is 0 or 1, or none, where
/// each of its bidi paragraphs has that of its first strong character (CSS Writing Modes 4, 2.4.3).
#[derive(Debug, Drop)]
pub struct Paragraph {
    pub base: Option<u8>,
    pub style: Style,
    pub items: Items,
}

/// A paragraph that is lent: its base level, the style of its block container, and its items.
#[derive(Clone, Copy)]
pub struct LentParagraph<'a> {
    pub base: Option<u8>,
    pub style: &'a Style,
    pub items: &'a [Item],
}

/// A prepared paragraph: its items, and for each its level, the class by which L1 takes it, the base level of its bidi
/// paragraph, and whether a line may end behind it.
#[derive(Drop)]
pub struct Prepared {
    items: PreparedItems,
    levels: LevelList,
    classes: ClassList,
    // None where they are the levels, as in most paragraphs, where all are 0.
    bases: Option<LevelList>,
    breaks: BreakList,
}

impl Model for Prepared {
    ghost use Rattle.para_prepare.specs.Bases.{bases_in};
    ghost use Rattle.para_prepare.specs.Preparation.{AreWhole, Preparation};

    ghost Value = { Preparation };

    ghost view = { λ p. record { items = p.items.items; levels = p.levels.items; classes = p.classes.items; bases = bases_in p.levels.items p.bases; breaks = p.breaks.items } };

    ghost invariant = { λ p. AreWhole p.items.items p.levels.items p.classes.items (bases_in p.levels.items p.bases) p.breaks.items };
}

impl Prepared {
    /// The items in logical order.
    pub fn items(&self) -> &[PreparedItem]
        ensures are { result.now ≡ self.now.items }
    {
        &self.items
    }

    /// The level of each item, at most 126 (UAX 9, X1 to I2).
    pub fn levels(&self) -> &[u8]
        ensures are { result.now ≡ self.now.levels }
        ensures length { length self.now.levels ≡ length self.now.items }
        ensures bounds { All (λ level. level ≤ 126) self.now.levels }
    {
        &self.levels
    }

    /// The class by which L1 takes each item.
    pub fn classes(&self) -> &[BidiClass]
        ensures are { result.now ≡ self.now.classes }
        ensures length { length self.now.classes ≡ length self.now.items }
    {
        &self.classes
    }

    /// The base level of each item's bidi paragraph, 0 or 1.
    pub fn bases(&self) -> &[u8]
        ensures are { result.now ≡ self.now.bases }
        ensures length { length self.now.bases ≡ length self.now.items }
        ensures bounds { All (λ base. base ≤ 1) self.now.bases }
    {
        match &self.bases {
            Some(bases) => bases,
            None => &self.levels,
        }
    }

    /// For each item whether a line may end behind it (CSS Text 3, 5.1).
    pub fn breaks(&self) -> &[Breaking]
        ensures are { result.now ≡ self.now.breaks }
        ensures length { length self.now.breaks ≡ length self.now.items }
    {
        &self.breaks
    }
}

/// Prepares a paragraph. All its texts together have at most 1,048,576 bytes, and their font sizes are from 0 to 65,536.
/// `arena` is for scratch memory, and empty when the call returns. The call is a step, also one that runs out of memory, as one
/// of 2^32 items of the paragraph or more does. The items come in the order of the paragraph's, and there are at most as many as bytes of text and items together, and no more
/// inline-blocks among them than the paragraph has. No unit advances by less than 0 or by more than 655,360, and no combined
/// run by more than 65,536.
pub fn prepare<L: Ledger>(
    alloc: Global,
    paragraph: &Paragraph,
    faces: &Faces,
    arena: &mut Bump,
    steps: &mut Steps<L>,
) -> Result<Prepared, AllocError>
    requires base { IfSome paragraph.now.base (λ base. base ≤ 1) }
    requires bytes { text_bytes (entries_of paragraph.now.items.items) ≤ 1048576 }
    requires sizes { All HasFontSize (entries_of paragraph.now.items.items) }
    ensures ticks { steps.new ≡ steps.old + 1 }
    ensures prepared { IfOk result (λ p. p ≡ preparation (faces_of ⟦<dyn Face as Face>⟧ faces.now) paragraph.now.base paragraph.now.style (entries_of paragraph.now.items.items)) }
    ensures count { IfOk result (λ p. length p.items ≤ text_bytes (entries_of paragraph.now.items.items) + length paragraph.now.items.items) }
    ensures sources { IfOk result (λ p. AreFrom 0 (length paragraph.now.items.items) p.items) }
    ensures atoms { IfOk result (λ p. atoms_in p.items ≤ atoms_of (entries_of paragraph.now.items.items)) }
    ensures lengths { IfOk result (λ p. All (λ item. HasBounds item.what) p.items) }
{
    let lent = LentParagraph {
        base: paragraph.base,
        style: &paragraph.style,
        items: &paragraph.items,
    };
    let prepared = prepare_lent(alloc, lent, faces, arena, steps)?;
    Ok(prepared)
}

/// Prepares a paragraph that stands elsewhere, as `prepare` does.
pub fn prepare_lent<L: Ledger>(
    alloc: Global,
    paragraph: LentParagraph<'_>,
    faces: &Faces,
    arena: &mut Bump,
    steps: &mut Steps<L>,
) -> Result<Prepared, AllocError>
    requires base { IfSome paragraph.base (λ base. base ≤ 1) }
    requires bytes { text_bytes (entries_of paragraph.items.now) ≤ 1048576 }
    requires sizes { All HasFontSize (entries_of paragraph.items.now) }
    ensures ticks { steps.new ≡ steps.old + 1 }
    ensures prepared { IfOk result (λ p. p ≡ preparation (faces_of ⟦<dyn Face as Face>⟧ faces.now) paragraph.entry.base paragraph.entry.style.now (entries_of paragraph.entry.items.now)) }
    ensures count { IfOk result (λ p. length p.items ≤ text_bytes (entries_of paragraph.entry.items.now) + length paragraph.entry.items.now) }
    ensures sources { IfOk result (λ p. AreFrom 0 (length paragraph.entry.items.now) p.items) }
    ensures atoms { IfOk result (λ p. atoms_in p.items ≤ atoms_of (entries_of paragraph.entry.items.now)) }
    ensures lengths { IfOk result (λ p. All (λ item. HasBounds item.what) p.items) }
{
    steps.tick();
    let prepared = scratch(alloc, paragraph, faces, arena);
    let _ = arena.reset();
    prepared
}

fn scratch(
    alloc: Global,
    paragraph: LentParagraph<'_>,
    faces: &Faces,
    arena: &Bump,
) -> Result<Prepared, AllocError>
    requires { CanBePrepared paragraph.base (entries_of paragraph.items.now) }
    ensures { IfOk result (IsPreparedFrom (faces_of ⟦<dyn Face as Face>⟧ faces.now) paragraph.entry.base paragraph.entry.style.now (entries_of paragraph.entry.items.now)) }
{
    if paragraph.items.len() > u32::MAX as usize {
        return Err(AllocError);
    }
    let resources = Resources { arena, faces };
    let kept = kept_letters(arena, paragraph.items)?;
    match by_lists(alloc, paragraph, &kept, resources)? {
        Some(prepared) => Ok(prepared),
        None => by_all_rules(alloc, paragraph, kept, resources),
    }
}

// Prepares a paragraph with these kept characters, if nothing in it asks for a level but 0, or if each item is one
// character of the one bidi paragraph that it is.
fn by_lists(
    alloc: Global,
    paragraph: LentParagraph<'_>,
    kept: &Kept,
    resources: Resources,
) -> Result<Option<Prepared>, AllocError>
    requires { IfSome paragraph.base (λ base. base ≤ 1) }
    ensures { IfOk result (λ made. IfSome made (IsPreparedFrom (faces_of ⟦<dyn Face as Face>⟧ resources.entry.faces.now) paragraph.entry.base paragraph.entry.style.now (entries_of kept.now.items.now))) }
{
    if !is_tried(paragraph, &kept.letters) {
        return Ok(None);
    }
    let made = flat_lists(alloc, kept, resources)?;
    of_lists(alloc, paragraph.base, made)
}

// What is prepared of the lists of a paragraph whose block container puts nothing round its bidi paragraphs, if its levels are
// told by them.
#[tactic(auto, using(crate::proofs::SinglesLaws::zero_prepared, crate::proofs::SinglesLaws::own_prepared, crate::proofs::SinglesLaws::at_levels_count, crate::proofs::SinglesLaws::bounds_at_levels))]
fn of_lists(
    alloc: Global,
    given: Option<u8>,
    made: FlatLists<'_>,
) -> Result<Option<Prepared>, AllocError>
    requires base { IfSome given (λ base. base ≤ 1) }
    requires alike { AreAlike (flat_of made) }
    ensures prepared { (style : Style) → (all : List parts.Part) → puts_nothing style.bidi ≡ true → flat_of made.entry ≡ grown nothing all → IfOk result (λ own. IfSome own (λ p. p ≡ spec.prepared_by (raws all) (spec.standings_of given style all))) }
    ensures count { IfOk result (λ own. IfSome own (λ p. length p.items ≡ length made.entry.items.items)) }
    ensures bounds { IfOk result (λ own. IfSome own (λ p. All HasBoundsIn p.items)) }
{
    if is_zero(given) && made.flat {
        left_to_right_has_level_zero();
        let prepared = at_level_zero(alloc, made)?;
        Ok(Some(prepared))
    } else if made.bare {
        let prepared = at_own_levels(alloc, given, made)?;
        Ok(Some(prepared))
    } else {
        Ok(None)
    }
}

fn is_zero(base: Option<u8>) -> bool
    ensures { result ≡ is_zero base }
{
    base == Some(0)
}

// Whether a paragraph with these kept characters looks so.
fn is_tried(paragraph: LentParagraph<'_>, letters: &[Letter]) -> bool
    ensures { result ≡ true → puts_nothing paragraph.entry.style.now.bidi ≡ true }
{
    puts_nothing(paragraph.style.bidi)
        && ((is_zero(paragraph.base) && looks_flat(paragraph.items, letters))
            || looks_bare(paragraph.items, letters))
}

// Whether a block container with this `unicode-bidi` puts nothing round its bidi paragraphs.
fn puts_nothing(bidi: UnicodeBidi) -> bool
    ensures { result ≡ puts_nothing bidi }
{
    !matches!(
        bidi,
        UnicodeBidi::BidiOverride | UnicodeBidi::IsolateOverride
    )
}

// What is prepared of these lists, where each item stands at level 0.
fn at_level_zero(alloc: Global, made: FlatLists<'_>) -> Result<Prepared, AllocError>
    requires { AreAlike (flat_of made) }
    ensures { IfOk result (λ p. p ≡ zero_preparation (flat_of made.entry)) }
{
    let levels = same_levels(alloc, 0, made.items.len())?;
    let breaks = breaks_of(alloc, &made.breaks)?;
    Ok(Prepared {
        items: made.items,
        levels,
        classes: made.classes,
        bases: None,
        breaks,
    })
}

// What is prepared of these lists, where each item is a character of a bidi paragraph with this base level or none.
#[tactic(auto, using(crate::proofs::SinglesLaws::at_levels_count))]
fn at_own_levels(
    alloc: Global,
    given: Option<u8>,
    made: FlatLists<'_>,
) -> Result<Prepared, AllocError>
    requires base { IfSome given (λ base. base ≤ 1) }
    requires alike { AreAlike (flat_of made) }
    ensures prepared { IfOk result (λ p. p ≡ own_preparation given (flat_of made.entry)) }
    ensures count { IfOk result (λ p. length p.levels ≡ length made.entry.items.items) }
{
    let FlatLists {
        items,
        classes,
        breaks,
        ..
    } = made;
    let chars = characters_in(alloc, &items)?;
    let base = base_of(given, &classes);
    let levels = paragraph_levels(alloc, &chars, &classes, base)?;
    let items = at_levels(items, &levels);
    let bases = same_levels(alloc, base, items.len())?;
    let breaks = breaks_of(alloc, &breaks)?;
    Ok(Prepared {
        items,
        levels,
        classes,
        bases: Some(bases),
        breaks,
    })
}

// So many times this level.
fn same_levels(alloc: Global, level: u8, count: usize) -> Result<LevelList, AllocError>
    ensures { IfOk result (λ levels. levels.items ≡ replicate count level) }
{
    let levels = Vec::from_elem(alloc, level, count)?;
    Ok(levels)
}

// Prepares a paragraph with these kept characters by all rules of the bidi algorithm (UAX 9).
fn by_all_rules<'a>(
    alloc: Global,
    paragraph: LentParagraph<'_>,
    kept: Kept<'a>,
    resources: Resources<'a>,
) -> Result<Prepared, AllocError>
    requires { IfSome paragraph.base (λ base. base ≤ 1) }
    ensures { IfOk result (IsPreparedFrom (faces_of ⟦<dyn Face as Face>⟧ resources.entry.faces.now) paragraph.entry.base paragraph.entry.style.now (entries_of kept.entry.items.now)) }
{
    let arena = resources.arena;
    let content = content_of(alloc, kept, resources)?;
    let standings = standings_of(alloc, arena, paragraph, &content.letters, &content.parts)?;
    let prepared = prepared_by(alloc, arena, &content.letters, &content.parts, &standings)?;
    Ok(prepared)
}

// How the items of these parts of the paragraph stand.
fn standings_of<'a>(
    alloc: Global,
    arena: &'a Bump,
    paragraph: LentParagraph<'_>,
    letters: &[Letter],
    parts: &[Part],
) -> Result<Standings<'a>, AllocError>
    requires base { IfSome paragraph.base (λ base. base ≤ 1) }
    requires parts { All (IsPart (length letters.now)) parts.now }
    ensures standings { IfOk result (λ out. out.items ≡ spec.standings_of paragraph.entry.base paragraph.entry.style.now (parts_of letters.now parts.now)) }
    ensures count { IfOk result (λ out. length out.items ≡ length (raws (parts_of letters.now parts.now))) }
    ensures bounds { IfOk result (λ out. All IsStanding out.items) }
{
    let reading = Reading {
        given: paragraph.base,
        container: container_of(paragraph.style),
    };
    let marks = taking(arena, parts)?;
    let out = standings(alloc, arena, reading, letters, parts, &marks)?;
    Ok(out)
}

// What a block container of this style puts round its bidi paragraphs.
fn container_of(style: &Style) -> Around
    ensures { result ≡ spec.container_of style.now }
{
    Around {
        bidi: style.bidi,
        dir: style.used_direction(),
    }
}

// What is made of these parts, whose items stand so.
fn prepared_by(
    alloc: Global,
    arena: &Bump,
    letters: &[Letter],
    parts: &[Part],
    standings: &[Standing],
) -> Result<Prepared, AllocError>
    requires sound { AreSound letters.now parts.now }
    requires count { length standings.now ≡ length (raws (parts_of letters.now parts.now)) }
    requires bounds { All IsStanding standings.now }
    ensures prepared { IfOk result (λ p. p ≡ spec.prepared_by (raws (parts_of letters.now parts.now)) standings.now) }
    ensures count { IfOk result (λ p. length p.items ≤ length parts.now) }
    ensures lengths { IfOk result (λ p. All (λ item. HasBounds item.what) p.items) }
{
    let items = prepared_items(alloc, letters, parts, standings)?;
    let levels = levels_of(alloc, standings)?;
    let classes = classes(alloc, letters, parts)?;
    let bases = bases_of(alloc, standings)?;
    let breaks = breaks(alloc, arena, parts)?;
    Ok(Prepared {
        items,
        levels,
        classes,
        bases: Some(bases),
        breaks,
    })
}
