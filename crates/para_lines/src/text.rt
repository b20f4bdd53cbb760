//! A line of a paragraph that is one run of text outside all inline boxes (CSS 2, 9.4.2 and 10.8).

ghost use Rattle.std.specs.Prelude.{◌≡◌, ◌<◌, ◌≤◌, ◌^◌, true, [], All, IfOk, IfSome, List, length, map, pos, unsigned_abs};
ghost use Rattle.fragment_types.specs.Item.{Entry};
ghost use Rattle.line_place.specs.LineText.{IsLineText, IsUnit, extent_in, text_of, unit_in};
ghost use Rattle.line_place.specs.Reach.{item_reach, total};
ghost use Rattle.para_lines.specs.Boxes.{chain_at};
ghost use Rattle.para_lines.specs.Filling.{is_space};
ghost use Rattle.para_lines.specs.Line.{IsAble, content_in};
ghost use Rattle.para_lines.specs.Lines as rule;
ghost use Rattle.para_lines.specs.Standing.{plain};
ghost use Rattle.para_lines.specs.Text.{AreSpacesFrom, IsText, IsUnitFrom, bare};

use crate::boxes::Boxes;
use crate::filling::is_space;
use crate::standing::{Standing, Standings};
use fragment_types::{Glyphs, RunUnit, RunUnits, UnitKind};
use line_place::LineText;
use para_prepare::PreparedContent;
use std::alloc::{AllocError, Global};

/// The text node and the form of units.
#[derive(Clone, Copy)]
pub(crate) struct TextName {
    pub(crate) node: u32,
    pub(crate) form: UnitKind,
}

/// The text of a line: how many of its items stand before the Spaces at its end.
#[derive(Clone, Copy)]
pub(crate) struct Text {
    pub(crate) name: TextName,
    pub(crate) count: usize,
}

/// The text that these items are, where they are one run outside all inline boxes, from left to right, before Spaces.
pub(crate) fn text_in(boxes: &Boxes, standings: &Standings) -> Option<Text>
    requires { All (IsAble (length boxes.now)) standings.now }
    ensures { IfSome result (λ text. IsText boxes.now standings.now text) }
{
    let count = without_spaces(standings);
    if count == 0 {
        return None;
    }
    let first = standings.at(0);
    let name = name_of(&first.item.what)?;
    if stands_outside(boxes, &first) && are_of(standings, first.item.source, name) {
        Some(Text { name, count })
    } else {
        None
    }
}

// Whether an item stands outside all inline boxes.
#[tactic(auto, using(crate::proofs::TextLines::no_chain))]
fn stands_outside(boxes: &Boxes, standing: &Standing) -> bool
    requires { standing.now.item.now.source < length boxes.now }
    ensures { result ≡ true → chain_at boxes.now standing.now.item.now.source ≡ [] }
{
    let round = boxes.round(standing.item.source as usize);
    round.inside.is_none()
}

// How many items stand before the Spaces at the end.
fn without_spaces(standings: &Standings) -> usize
    ensures { AreSpacesFrom standings.now result }
{
    let mut count = standings.count();
    while count > 0 && is_space_here(&standings.at(count - 1)) {
        count -= 1;
    }
    count
}

fn is_space_here(standing: &Standing) -> bool
    ensures { result ≡ is_space standing.now.item.now.what }
{
    is_space(&standing.item.what)
}

// The node and the form of a unit.
fn name_of(what: &PreparedContent) -> Option<TextName>
    ensures { IfSome result (λ name. (atom : rule.Atom) → IsUnit name.node name.form (content_in (pos 0) what.now atom)) }
{
    match what {
        PreparedContent::Unit { node, form, .. } => Some(TextName {
            node: *node,
            form: *form,
        }),
        PreparedContent::Combined { .. }
        | PreparedContent::Atom { .. }
        | PreparedContent::Break { .. } => None,
    }
}

// Whether these are units of this node and form at level 0, which come from this item of the paragraph.
#[inline(never)]
fn are_of(standings: &Standings, source: u32, name: TextName) -> bool
    ensures { result ≡ true → All (IsUnitFrom source name) standings.now }
{
    for place in 0..standings.count() {
        if !is_of(&standings.at(place), source, name) {
            return false;
        }
    }
    true
}

fn is_of(standing: &Standing, source: u32, name: TextName) -> bool
    ensures { result ≡ true → IsUnitFrom source name (plain standing.now) }
{
    standing.level == 0 && standing.item.source == source && is_unit(&standing.item.what, name)
}

fn is_unit(what: &PreparedContent, name: TextName) -> bool
    ensures { result ≡ true → (atom : rule.Atom) → IsUnit name.node name.form (content_in (pos 0) what.now atom) }
{
    match what {
        PreparedContent::Unit { node, form, .. } => *node == name.node && *form == name.form,
        PreparedContent::Combined { .. }
        | PreparedContent::Atom { .. }
        | PreparedContent::Break { .. } => false,
    }
}

/// These items, which are this text, as one run.
pub(crate) fn line_text(
    alloc: Global,
    standings: &Standings,
    text: Text,
) -> Result<LineText, AllocError>
    requires count { text.count ≤ length standings.now }
    requires reach { total item_reach (map bare standings.now) ≤ 2 ^ 60 }
    ensures { IfOk result (λ made. (entries : List Entry) → IsText entries standings.now text → IsLineText (text_of made) (map bare standings.now)) }
{
    let solid = standings.between(0, text.count);
    let extent = extent_of(&solid);
    let units = units_of(alloc, &solid)?;
    Ok(LineText {
        node: text.name.node,
        form: text.name.form,
        extent,
        units,
    })
}

// The extent of these items together.
fn extent_of(standings: &Standings) -> i64
    requires { total item_reach (map bare standings.now) ≤ 2 ^ 60 }
    ensures is { result ≡ extent_in (map bare standings.now) }
    ensures near { unsigned_abs result ≤ total item_reach (map bare standings.now) }
{
    let mut extent = 0;
    let mut from = standings.count();
    while from > 0 {
        from -= 1;
        extent += standings.at(from).extent;
    }
    extent
}

// What they show as units of a run.
#[inline(never)]
fn units_of(alloc: Global, standings: &Standings) -> Result<RunUnits, AllocError>
    ensures { IfOk result (λ made. made.items ≡ map unit_in (map bare standings.now)) }
{
    let mut made = Vec::with_capacity(alloc, standings.count())?;
    for k in 0..standings.count() {
        made.push_reserved(unit_of(alloc, &standings.at(k))?);
    }
    Ok(made)
}

/// An item as a unit of its run, straight from what is prepared of it. Most are units, and most of these are one character.
#[inline(always)]
pub(crate) fn unit_of(alloc: Global, standing: &Standing) -> Result<RunUnit, AllocError>
    ensures { IfOk result (λ made. made ≡ unit_in (bare (plain standing.now))) }
{
    match &standing.item.what {
        PreparedContent::Unit {
            first,
            end,
            glyphs,
            ..
        } => RunUnit::new(alloc, *first, *end, standing.extent, glyphs),
        PreparedContent::Combined {
            first,
            end,
            glyphs,
            ..
        } => RunUnit::new(alloc, *first, *end, standing.extent, glyphs.glyphs()),
        PreparedContent::Atom { .. } | PreparedContent::Break { .. } => {
            RunUnit::new(alloc, 0, 0, standing.extent, &Glyphs::none())
        }
    }
}
