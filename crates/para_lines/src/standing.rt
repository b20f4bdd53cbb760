//! The items of a paragraph on their way to its lines (CSS 2, 9.4.2 and 10.8.1).

ghost use Rattle.std.specs.List.{slice_range};
ghost use Rattle.std.specs.Prelude.{◌≡◌, ◌<◌, ◌≤◌, ◌^◌, true, ℕ, suc, All, IfOk, IfSome, List, Option, ℤ, drop, length, map, min, pos, slice_index_or, unsigned_abs};
ghost use Rattle.fragment_types.specs.Item.{Entry};
ghost use Rattle.para_prepare.specs.Preparation.{HasBounds, atoms_in};
ghost use Rattle.para_lines.specs.Alone.{GoForward, fill_alone};
ghost use Rattle.para_lines.specs.Filling.{advance_of, fill_items};
ghost use Rattle.para_lines.specs.Boxes.{chain_at, innermost};
ghost use Rattle.line_place.specs.Line.{content_of, item_of};
ghost use Rattle.para_lines.specs.Line.{HasAtom, IsAble, IsNearAtom, atom_in, content_in, first_atom, standing_of};
ghost use Rattle.para_lines.specs.Paragraph.{atom_of};
ghost use Rattle.para_lines.specs.Lines as rule;
ghost use Rattle.para_lines.specs.Lines.{atom_extents};
ghost use Rattle.para_lines.specs.Prepared.{AreSources, preparation_of};
ghost use Rattle.para_lines.specs.Around.{has};
ghost use Rattle.para_lines.specs.Standing as definitions;
ghost use Rattle.para_lines.specs.Standing.{counted, plain, rest_of};

use crate::filling::is_space;
use crate::line::raised;
use crate::paragraph::Atom;
use crate::prepared::PreparedLists;
use crate::seated::Seated;
use fragment_types::Breaking;
use line_place::{LineContent, LineItem};
use para_prepare::{PreparedContent, PreparedItem};
use std::alloc::{AllocError, Global};
use std::marker::Model;
use wm_chars::BidiClass;

/// An item of a paragraph on its way to a line: all that is prepared of it, its extent along the line, and the atoms from it on.
#[derive(Clone, Copy)]
pub(crate) struct Standing<'a> {
    pub(crate) item: &'a PreparedItem,
    pub(crate) level: u8,
    pub(crate) class: BidiClass,
    /// The base level of its bidi paragraph.
    pub(crate) base: u8,
    /// Whether a line may end behind it.
    pub(crate) end: Breaking,
    pub(crate) extent: i64,
    pub(crate) atoms: &'a [Atom],
}

/// The items of a prepared paragraph on their way to its lines, in order, or those from one place up to another. None of them is
/// written down: each is read where it was prepared.
#[derive(Drop)]
pub(crate) struct Standings<'a> {
    lists: PreparedLists<'a>,
    // All atoms of the paragraph, and how many of them stand before each item; nothing is counted where there are none.
    atoms: &'a [Atom],
    skipped: &'a [usize],
}

impl<'a> Model for Standings<'a> {
    ghost use Rattle.std.specs.Prelude.{List};
    ghost use Rattle.std.specs.Coded.{codes};
    ghost use Rattle.fragment_types.specs.contracts.fragment.Fragment as fragment;
    ghost use Rattle.para_lines.specs.Standing.{HasCounts, Standing, standings_of};

    ghost Value = { List Standing };

    ghost coded = { Prim.hlevel (codes, fragment.the_row.coded) };

    ghost view = { λ own. standings_of own.lists.items.now own.lists.levels.now own.lists.classes.now own.lists.bases.now own.lists.breaks.now own.skipped.now own.atoms.now };

    ghost invariant = { λ own. HasCounts own.lists.items.now own.skipped.now own.atoms.now };
}

impl<'a> Standings<'a> {
    /// All items of a prepared paragraph, with its atoms in order and how many of them stand before each item.
    pub(crate) fn of(
        lists: &PreparedLists<'a>,
        atoms: &'a [Atom],
        skipped: &'a [usize],
    ) -> Standings<'a>
        requires { skipped.now ≡ counted (length atoms.now) lists.now.items.now }
        ensures are { (inline : Option ℤ) (entries : List Entry) → map (standing_of entries) result ≡ rule.standings entries (preparation_of lists.now) (map atom_of atoms.now) (map (λ item. item.advance) (fill_items inline entries (preparation_of lists.now) (atom_extents (map atom_of atoms.now)))) }
        ensures fills { (inline : Option ℤ) (entries : List Entry) → length entries ≡ 1 → AreSources 1 lists.now.items.now → map fill_alone result ≡ fill_items inline entries (preparation_of lists.now) (atom_extents (map atom_of atoms.now)) }
        ensures able { (count : ℕ) → AreSources count lists.now.items.now → atoms_in lists.now.items.now ≤ length atoms.now → All IsNearAtom atoms.now → All (IsAble count) result }
        ensures forward { All (λ item. HasBounds item.what) lists.now.items.now → length atoms.now ≡ 0 → GoForward result }
        ensures count { length result ≡ length lists.now.items.now }
    {
        Standings {
            lists: *lists,
            atoms,
            skipped,
        }
    }

    /// How many items there are.
    #[inline(always)]
    pub(crate) fn count(&self) -> usize
        ensures { result ≡ length self.now }
    {
        self.lists.items.len()
    }

    /// The item at a place.
    #[inline(always)]
    pub(crate) fn at(&self, place: usize) -> Standing<'a>
        requires { place < length self.now }
        ensures { (d : definitions.Standing) → plain result ≡ slice_index_or self.now place d }
    {
        let items = self.lists.items;
        let item = &items[place];
        let atoms = rest_at(self.skipped, self.atoms, place);
        Standing {
            item,
            level: self.lists.levels[place],
            class: self.lists.classes[place],
            base: self.lists.bases[place],
            end: self.lists.breaks[place],
            extent: extent_of(&item.what, atoms),
            atoms,
        }
    }

    /// Their levels.
    pub(crate) fn levels(&self) -> &'a [u8]
        ensures { result.now ≡ map (λ own. own.level) self.now }
    {
        self.lists.levels
    }

    /// Their classes for L1 of UAX 9.
    pub(crate) fn classes(&self) -> &'a [BidiClass]
        ensures { result.now ≡ map (λ own. own.class) self.now }
    {
        self.lists.classes
    }

    /// Those from one place up to another.
    pub(crate) fn between(&self, from: usize, end: usize) -> Standings<'a>
        requires order { from ≤ end }
        requires within { end ≤ length self.now }
        ensures { result ≡ slice_range self.now from end }
    {
        Standings {
            lists: self.lists.between(from, end),
            atoms: self.atoms,
            skipped: counts_between(self.skipped, from, end),
        }
    }
}

// The atoms from the item at a place on.
#[inline(always)]
fn rest_at<'a>(skipped: &[usize], atoms: &'a [Atom], place: usize) -> &'a [Atom]
    requires within { All (λ count. count ≤ length atoms.now) skipped.now }
    requires place { 0 < length skipped.now → place < length skipped.now }
    ensures { result.now ≡ rest_of (drop place skipped.now) atoms.now }
{
    if skipped.is_empty() {
        atoms
    } else {
        &atoms[skipped[place]..]
    }
}

// How many atoms stand before each item from one place up to another.
fn counts_between(skipped: &[usize], from: usize, end: usize) -> &[usize]
    requires order { from ≤ end }
    requires within { 0 < length skipped.now → end ≤ length skipped.now }
    ensures { result.now ≡ slice_range skipped.now from end }
{
    if skipped.is_empty() {
        skipped
    } else {
        &skipped[from..end]
    }
}

// How far an item advances, with the atoms from it on. Most items are units.
#[inline(always)]
fn extent_of(what: &PreparedContent, atoms: &[Atom]) -> i64
    ensures { result ≡ advance_of what.now (atom_extents (map atom_of atoms.now)) }
{
    match what {
        PreparedContent::Unit { advance, .. } | PreparedContent::Combined { advance, .. } => {
            *advance
        }
        PreparedContent::Atom { .. } => first_extent(atoms),
        PreparedContent::Break { .. } => 0,
    }
}

#[inline(never)]
#[tactic(auto, using(crate::proofs::StandLaws::first_extent_is, crate::proofs::StandLaws::no_extent))]
fn first_extent(atoms: &[Atom]) -> i64
    ensures { result ≡ slice_index_or (atom_extents (map atom_of atoms.now)) 0 (pos 0) }
{
    if atoms.is_empty() { 0 } else { atoms[0].extent }
}

/// How many atoms stand before each of these items; nothing where there are none, as in most paragraphs.
pub(crate) fn skipped_atoms(
    alloc: Global,
    items: &[PreparedItem],
    atoms: &[Atom],
) -> Result<Vec<usize>, AllocError>
    ensures { IfOk result (λ made. made.items ≡ counted (length atoms.now) items.now) }
{
    if atoms.is_empty() {
        return Ok(Vec::new(alloc));
    }
    let mut made = Vec::with_capacity(alloc, items.len())?;
    let mut count = 0;
    for place in 0..items.len() {
        made.push_reserved(count);
        count = count_behind(&items[place].what, count, atoms.len());
    }
    Ok(made)
}

// How many of so many atoms stand before what stands behind an item.
fn count_behind(what: &PreparedContent, before: usize, most: usize) -> usize
    requires { before ≤ most }
    ensures value { result ≡ definitions.count_behind what.now before most }
    ensures within { result ≤ most }
{
    match what {
        PreparedContent::Atom { .. } => one_more(before, most),
        PreparedContent::Unit { .. }
        | PreparedContent::Combined { .. }
        | PreparedContent::Break { .. } => before,
    }
}

// One more, but no more than so many.
fn one_more(count: usize, most: usize) -> usize
    requires { count ≤ most }
    ensures { result ≡ min (suc count) most }
{
    if count < most { count + 1 } else { count }
}

impl Seated<'_> {
    /// An item on the line: what it is, its level and its extent, and in which box of the line it stands.
    #[inline(always)]
    pub(crate) fn line_item<'b>(&self, standing: &Standing<'b>) -> LineItem<'b>
        requires able { IsAble (length self.now.boxes.now) (plain standing.now) }
        requires inside { IfSome (innermost (chain_at self.now.boxes.now standing.now.item.now.source)) (λ box. has self.now.places.now box ≡ true) }
        ensures { item_of result ≡ rule.line_item self.now.boxes.now self.now.places.now (standing_of self.now.boxes.now (plain standing.now)) }
    {
        let item = standing.item;
        let round = self.boxes.round(item.source as usize);
        let what = content(&item.what, round.shifts, standing.atoms);
        LineItem {
            level: standing.level,
            class: standing.class,
            extent: standing.extent,
            inside: self.seat_of(round.inside),
            space: is_space(&item.what),
            apart: item.apart,
            what,
        }
    }
}

// What an item is, inside boxes with these lengths of `vertical-align`.
#[inline(always)]
fn content<'a>(what: &'a PreparedContent, shifts: i64, atoms: &'a [Atom]) -> LineContent<'a>
    requires shifts { unsigned_abs shifts ≤ 2 ^ 53 }
    requires atom { HasAtom what.now atoms.now }
    requires near { All IsNearAtom atoms.now }
    ensures { content_of result ≡ content_in shifts what.now (first_atom atoms.now) }
{
    match what {
        PreparedContent::Unit {
            node,
            first,
            end,
            form,
            advance: _,
            space: _,
            glyphs,
        } => LineContent::Unit {
            node: *node,
            first: *first,
            end: *end,
            form: *form,
            glyphs,
        },
        PreparedContent::Combined {
            node,
            first,
            end,
            advance: _,
            natural,
            glyphs,
        } => LineContent::Combined {
            node: *node,
            first: *first,
            end: *end,
            natural: *natural,
            glyphs: glyphs.glyphs(),
        },
        PreparedContent::Atom { .. } => atom_content(&atoms[0], shifts),
        PreparedContent::Break { .. } => LineContent::Break,
    }
}

// An atom, raised by its own length and those of the boxes round it. Few items are atoms.
#[inline(never)]
fn atom_content(atom: &Atom, shifts: i64) -> LineContent<'_>
    requires shifts { unsigned_abs shifts ≤ 2 ^ 53 }
    requires near { IsNearAtom atom.now }
    ensures { content_of result ≡ atom_in shifts (atom_of atom.now) }
{
    let raised = raised(atom.shift, shifts);
    LineContent::Atom {
        fragment: &atom.fragment,
        left_margin: atom.left_margin,
        over_margin: atom.over_margin,
        over: atom.over + raised,
        under: atom.under - raised,
    }
}
