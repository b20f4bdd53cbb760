//! The content of a paragraph once its texts are cut: ends of inline boxes, bidi controls, items (CSS Writing Modes 4, 5.1
//! and 9.1; UAX 29).

ghost use Rattle.std.specs.Prelude.{◌≡◌, ◌≤◌, ◌+◌, ◌-◌, ◌++◌, [], ◌∷◌, length, All, IfOk, OnOk};
ghost use Rattle.face_api.specs.Faces.{faces_of};
ghost use Rattle.fragment_types.specs.Item.{entry_of, entries_of};
ghost use Rattle.para_prepare.specs.Content as spec;
ghost use Rattle.para_prepare.specs.Limits.{HasFontSize, text_bytes};
ghost use Rattle.para_prepare.specs.Views.{IsSound, item_parts, letters_at, parts_of};
ghost use Rattle.para_prepare.specs.Whole.{AreSound};

use crate::bidi_text::Around;
use crate::kept::{Kept, Letters};
use crate::letter::Letter;
use crate::parts::{Part, Parts, Span};
use crate::place::Place;
use crate::resources::Resources;
use crate::text::{Text, add_text, sets_upright};
use face_api::Face;
use fragment_types::Item;
use std::alloc::{AllocError, Global};

/// The kept characters of a paragraph, and the parts of its content, which name them by their places.
#[derive(Drop)]
pub(crate) struct Content<'a> {
    pub(crate) letters: Letters<'a>,
    pub(crate) parts: Parts<'a>,
}

/// The content of a paragraph. No unit advances by more than 655,360, and none is wider by itself than 655,360 for each of
/// its characters.
pub(crate) fn content_of<'a>(
    alloc: Global,
    kept: Kept<'a>,
    resources: Resources<'a>,
) -> Result<Content<'a>, AllocError>
    ensures parts { IfOk result (λ c. parts_of c.letters.items c.parts.items ≡ spec.parts (faces_of ⟦<dyn Face as Face>⟧ resources.entry.faces.now) (entries_of kept.entry.items.now)) }
    ensures sound { IfOk result (λ c. AreSound c.letters.items c.parts.items) }
    ensures count { IfOk result (λ c. length c.parts.items ≤ text_bytes (entries_of kept.entry.items.now) + length kept.entry.items.now) }
{
    let parts = all_parts(alloc, &kept, resources)?;
    Ok(Content {
        letters: kept.letters,
        parts,
    })
}

// The parts of the items of a paragraph.
fn all_parts<'a>(
    alloc: Global,
    kept: &Kept<'_>,
    resources: Resources<'a>,
) -> Result<Parts<'a>, AllocError>
    ensures parts { IfOk result (λ parts. parts_of kept.now.letters.items parts.items ≡ spec.parts (faces_of ⟦<dyn Face as Face>⟧ resources.entry.faces.now) (entries_of kept.now.items.now)) }
    ensures sound { IfOk result (λ parts. All (IsSound (length kept.now.letters.items)) parts.items) }
    ensures count { IfOk result (λ parts. length parts.items ≤ length kept.now.letters.items + length kept.now.items.now) }
{
    let items = kept.items;
    let letters: &[Letter] = &kept.letters;
    let ends: &[usize] = &kept.ends;
    let mut parts = Vec::with_capacity(resources.arena, letters.len() + items.len())?;
    let mut from = 0;
    for i in 0..items.len() {
        let to = ends[i];
        let place = Place {
            source: i as u32,
            letters,
            span: Span { from, to },
        };
        add_item(alloc, &mut parts, place, &items[i], resources)?;
        from = to;
    }
    Ok(parts)
}

// Adds the parts of an item.
fn add_item(
    alloc: Global,
    parts: &mut Parts,
    place: Place,
    item: &Item,
    resources: Resources,
) -> Result<(), AllocError>
    requires size { HasFontSize (entry_of item.now) }
    requires sound { All (IsSound (length place.letters.now)) parts.old.items }
    ensures parts { OnOk result (parts_of place.entry.letters.now parts.new.items ≡ parts_of place.entry.letters.now parts.old.items ++ item_parts (faces_of ⟦<dyn Face as Face>⟧ resources.entry.faces.now) place.entry.source (entry_of item.now) (letters_at place.entry.letters.now place.entry.span)) }
    ensures sound { OnOk result (All (IsSound (length place.entry.letters.now)) parts.new.items) }
    ensures count { OnOk result (length parts.new.items ≤ length parts.old.items + (place.entry.span.to - place.entry.span.from) + 1) }
{
    let source = place.source;
    match item {
        Item::Text { node, style, .. } => {
            let text = Text {
                place,
                node: *node,
                style,
                upright: sets_upright(style),
            };
            add_text(alloc, parts, text, resources)
        }
        Item::Open { style, .. } => {
            let around = Around {
                bidi: style.bidi,
                dir: style.used_direction(),
            };
            add_part(parts, Part::Opens(around))
        }
        Item::Close { .. } => add_part(parts, Part::Closes),
        Item::Atom { name } => add_part(
            parts,
            Part::Atom {
                source,
                name: *name,
            },
        ),
        Item::Break { node } => add_part(
            parts,
            Part::Break {
                source,
                node: *node,
            },
        ),
    }
}

fn add_part(parts: &mut Parts, part: Part) -> Result<(), AllocError>
    ensures { OnOk result (parts.new.items ≡ parts.old.items ++ part ∷ []) }
{
    parts.push(part)?;
    Ok(())
}
