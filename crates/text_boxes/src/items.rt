//! The items of a paragraph in which the text of a node gets other letters.

ghost use Rattle.std.specs.Prelude.{◌≡◌, ◌≢◌, IfOk, IfSome, IsTrue, map};
ghost use Rattle.std.specs.String.{string_bytes};
ghost use Rattle.fragment_types.specs.Item.{entries_of, entry_of};
ghost use Rattle.box_gen.specs.Tree.{content_of};
ghost use Rattle.box_arena.specs.At.{node_of};
ghost use Rattle.text_boxes.specs.Boxes.{content_with, entry_with, node_with};

use box_gen::{BoxNode, Content};
use fragment_types::{Item, Items};
use letters::SharedText;
use std::alloc::{AllocError, Global};

/// The box in which the text of this node has these letters. `None` where no text of this node in it has other letters.
pub(crate) fn node_with(
    alloc: Global,
    was: &BoxNode,
    node: u32,
    text: &SharedText,
) -> Result<Option<BoxNode>, AllocError>
    ensures new { IfOk result (λ new. IfSome new (λ new. node_of new ≡ node_with node (string_bytes text.now) (node_of was.now))) }
    ensures differs { IfOk result (λ new. IfSome new (λ new. content_with node (string_bytes text.now) (content_of was.now.content) ≢ content_of was.now.content)) }
{
    match &was.content {
        Content::Inline(items) if differs(items, node, text) => Ok(Some(BoxNode {
            name: was.name,
            style: was.style.clone()?,
            content: Content::Inline(items_with(alloc, items, node, text)?),
        })),
        Content::Inline(_) | Content::Blocks => Ok(None),
    }
}

// Whether a text of this node has other letters in a paragraph.
fn differs(items: &[Item], node: u32, text: &str) -> bool
    ensures { IsTrue result → map (entry_with node text.now) (entries_of items.now) ≢ entries_of items.now }
{
    items.iter().any(|item| has_other_letters(item, node, text))
}

// Whether an item is a text of this node with other letters.
fn has_other_letters(item: &Item, node: u32, text: &str) -> bool
    ensures { IsTrue result → entry_with node text.now (entry_of item.now) ≢ entry_of item.now }
{
    match item {
        Item::Text {
            node: own,
            text: was,
            ..
        } => *own == node && !is_same_text(was, text),
        Item::Open { .. } | Item::Close { .. } | Item::Atom { .. } | Item::Break { .. } => false,
    }
}

fn is_same_text(one: &str, other: &str) -> bool
    ensures same { one.now ≡ other.now → IsTrue result }
{
    one == other
}

// The items in which the text of this node has these letters.
fn items_with(
    alloc: Global,
    items: &[Item],
    node: u32,
    text: &SharedText,
) -> Result<Items, AllocError>
    ensures { IfOk result (λ copy. entries_of copy.items ≡ map (entry_with node (string_bytes text.now)) (entries_of items.now)) }
{
    let mut copy = Vec::with_capacity(alloc, items.len())?;
    for item in items {
        copy.push(item_with(item, node, text)?)?;
    }
    Ok(copy)
}

// The item in which the text of this node has these letters.
fn item_with(item: &Item, node: u32, text: &SharedText) -> Result<Item, AllocError>
    ensures { IfOk result (λ copy. entry_of copy ≡ entry_with node (string_bytes text.now) (entry_of item.now)) }
{
    match item {
        Item::Text {
            node: own,
            text: was,
            style,
        } => {
            let letters = if *own == node { text } else { was };
            Ok(Item::Text {
                node: *own,
                text: letters.clone()?,
                style: style.clone()?,
            })
        }
        Item::Open { node, style, opens } => Ok(Item::Open {
            node: *node,
            style: style.clone()?,
            opens: *opens,
        }),
        Item::Close { node, closes } => Ok(Item::Close {
            node: *node,
            closes: *closes,
        }),
        Item::Atom { name } => Ok(Item::Atom { name: *name }),
        Item::Break { node } => Ok(Item::Break { node: *node }),
    }
}
