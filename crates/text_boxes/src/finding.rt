//! The box that holds the text of a node.

ghost use Rattle.std.specs.Prelude.{◌≡◌};
ghost use Rattle.slab.specs.Slab.{ContainsKey};
ghost use Rattle.box_gen.specs.Tree.{content_of};
ghost use Rattle.fragment_types.specs.Item.{entry_of};
ghost use Rattle.box_arena.specs.At.{IsAbove, links_at};
ghost use Rattle.box_arena.specs.Links.{IsLinked};
ghost use Rattle.box_arena.specs.Reusing.{IsTree};
ghost use Rattle.text_boxes.specs.Boxes.{has_text, is_text_of};
ghost use Rattle.text_boxes.specs.Finding as rule;
ghost use Rattle.text_boxes.specs.Finding.{IsFound};

use box_arena::{BoxArena, BoxKey, MOST_BOXES};
use box_gen::Content;
use fragment_types::Item;

/// Which of some boxes hold a text: none, or one alone. `Unsure` where several do, or where not all of them were looked at.
#[derive(Clone, Copy, Debug, PartialEq, Eq)]
pub(crate) enum Found {
    Nowhere,
    In(BoxKey),
    Unsure,
}

/// Which box holds a text of this node, of a box and all inside it, as far as that many stand one inside the other. The recursion is as
/// deep as that.
pub(crate) fn find_in_box<T>(arena: &BoxArena<T>, key: BoxKey, node: u32, depth: u32) -> Found
    requires { IsTree arena.now.slots key }
    ensures { IsFound arena.now.slots key (IsAbove arena.now.slots key) node result }
{
    if depth == 0 {
        return Found::Unsure;
    }
    let mut found = find_at(arena, key, node);
    let mut next = arena.first(key);
    for _ in 0..MOST_BOXES {
        let Some(child) = next else {
            return found;
        };
        next = arena.next(child);
        let inside = find_in_box(arena, child, node, depth - 1);
        found = found_in_both(found, inside);
    }
    Found::Unsure
}

// Whether a box itself holds a text of this node.
fn find_at<T>(arena: &BoxArena<T>, key: BoxKey, node: u32) -> Found
    requires { ContainsKey arena.now key }
    ensures found { IsFound arena.now.slots key (λ k. k ≡ key) node result }
    ensures linked { IsLinked (links_at arena.now.slots) }
{
    if has_text(&arena.node(key).content, node) {
        Found::In(key)
    } else {
        Found::Nowhere
    }
}

// What is found of some boxes and others, by what is found of each.
fn found_in_both(some: Found, others: Found) -> Found
    ensures { result ≡ rule.found_in_both some others }
{
    match (some, others) {
        (Found::Nowhere, others) => others,
        (some, Found::Nowhere) => some,
        (Found::In(_) | Found::Unsure, Found::In(_) | Found::Unsure) => Found::Unsure,
    }
}

// Whether a box of this content holds a text of this node.
fn has_text(content: &Content, node: u32) -> bool
    ensures { result ≡ has_text node (content_of content.now) }
{
    match content {
        Content::Blocks => false,
        Content::Inline(items) => items.iter().any(|item| is_text_of(item, node)),
    }
}

// Whether an item is a text of this node.
fn is_text_of(item: &Item, node: u32) -> bool
    ensures { result ≡ is_text_of node (entry_of item.now) }
{
    match item {
        Item::Text { node: own, .. } => *own == node,
        Item::Open { .. } | Item::Close { .. } | Item::Atom { .. } | Item::Break { .. } => false,
    }
}
