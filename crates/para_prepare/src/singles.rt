//! Items that are one character of their bidi paragraph each, with nothing between them: what is seen of them at their
//! levels (UAX 9, L4).

ghost use Rattle.std.specs.Prelude.{◌≡◌, [], ◌∷◌, length, map, IfOk, IfSome};
ghost use Rattle.para_prepare.specs.Singles as singles;
ghost use Rattle.para_prepare.specs.Singles.{at_level, at_levels, character_in};

use crate::item::{PreparedContent, PreparedItem, PreparedItems};
use crate::items::mirror_or;
use fragment_types::Glyphs;
use std::alloc::{AllocError, Global};

/// The characters that the bidi algorithm reads of these items.
pub(crate) fn characters_in(alloc: Global, items: &[PreparedItem]) -> Result<Vec<char>, AllocError>
    ensures are { IfOk result (λ chars. chars.items ≡ map (λ item. character_in item.what) items.now) }
    ensures count { IfOk result (λ chars. length chars.items ≡ length items.now) }
{
    items
        .iter()
        .map(
            |item| -> char
                ensures { result ≡ character_in item.now.what }
            { character_in(&item.what) },
        )
        .collect(alloc)
}

// A unit of one character is read as it stands, anything else as U+FFFC.
fn character_in(what: &PreparedContent) -> char
    ensures { result ≡ character_in what.now }
{
    match what {
        PreparedContent::Unit { glyphs, .. } => glyphs.only_character().unwrap_or('\u{FFFC}'),
        PreparedContent::Combined { .. }
        | PreparedContent::Atom { .. }
        | PreparedContent::Break { .. } => '\u{FFFC}',
    }
}

/// These items, which stand as at level 0, with what is seen of them at these levels.
pub(crate) fn at_levels(items: PreparedItems, levels: &[u8]) -> PreparedItems
    requires { length levels.now ≡ length items.items }
    ensures { result.items ≡ at_levels items.items levels.now }
{
    let mut items = items;
    set_levels(&mut items, levels);
    items
}

fn set_levels(items: &mut [PreparedItem], levels: &[u8])
    requires { length levels.now ≡ length items.old }
    ensures { items.new ≡ at_levels items.old levels.now }
{
    for i in 0..items.len() {
        set_level(&mut items[i], levels[i]);
    }
}

// One item, which stands as at level 0, with what is seen of it at this level: mirrored at an odd one (UAX 9, L4).
#[inline(always)]
fn set_level(item: &mut PreparedItem, level: u8)
    ensures { item.new ≡ at_level level item.old }
{
    if level % 2 == 1 {
        mirror_in(item);
    }
}

fn mirror_in(item: &mut PreparedItem)
    ensures { item.new ≡ singles.mirrored_item item.old }
{
    if let PreparedContent::Unit { glyphs, .. } = &mut item.what {
        mirror_glyphs(glyphs);
    }
}

fn mirror_glyphs(glyphs: &mut Glyphs)
    ensures { glyphs.new ≡ singles.mirrored_glyphs glyphs.old }
{
    if let Some(c) = glyphs.only_character() {
        *glyphs = Glyphs::one(mirror_or(c));
    }
}
