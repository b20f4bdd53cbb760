//! Declarations that tie a document to one mode (CSS Logical Properties 1, 4; CSS Writing Modes 4, 3.2, 5.1 and 9.1).

ghost use Rattle.std.specs.Prelude.{◌≡◌, ◌++◌};
ghost use Rattle.css_types.specs.Rule.{rulings_of};
ghost use Rattle.dom_store.specs.State.{none, state_of, tree_to, tree_with, what_of};
ghost use Rattle.style_modes.specs.Turnable as rule;
ghost use Rattle.style_modes.specs.Tying as places;

use css_types::{Declaration, Property, Reach, Rule};
use dom_store::{Document, NodeKind};

/// No node of a document is deeper than this, where `html` is at 1.
const GREATEST_DEPTH: usize = 64;

/// Whether a property ties a document to one mode: it is about a side or an axis of the page, or says the mode or how text turns in it.
pub fn ties(property: Property) -> bool
    ensures { result ≡ rule.ties property }
{
    match property {
        Property::WritingMode | Property::TextOrientation | Property::TextCombineUpright => true,
        _ => is_of_page(property.row().reach),
    }
}

// Whether this is a side or an axis of the page.
fn is_of_page(reach: Reach) -> bool
    ensures { result ≡ rule.is_of_page reach }
{
    match reach {
        Reach::PhysicalSide(_, _) | Reach::PhysicalAxis(_, _) => true,
        Reach::Whole | Reach::FlowSide(_, _) | Reach::FlowAxis(_, _) => false,
    }
}

/// The place in bytes of the first declaration that ties a document with these rules to one mode: of the rules, whether or not they match,
/// and of the style attributes, also of elements that aren't shown. None where the document can be set in any of the four modes. Takes no
/// memory.
pub fn first_tying(rules: &[Rule], document: &Document) -> Option<usize>
    ensures { result ≡ places.first_of (places.tying_places (rulings_of rules.now) (state_of document.now)) }
{
    earlier(
        first_in_rules(rules),
        first_below(document, &[0], GREATEST_DEPTH),
    )
}

// That of the rules.
fn first_in_rules(rules: &[Rule]) -> Option<usize>
    ensures { result ≡ places.first_of (places.rule_places (rulings_of rules.now)) }
{
    let mut first = None;
    for rule in rules {
        first = earlier(first, first_in(&rule.declarations));
    }
    first
}

// The place of the first of these declarations that ties.
fn first_in(declarations: &[Declaration]) -> Option<usize>
    ensures { result ≡ places.first_of (places.places_of declarations.now) }
{
    let mut first = None;
    for declaration in declarations {
        first = earlier(first, tying_place(declaration));
    }
    first
}

// The place of a declaration, where it ties.
fn tying_place(declaration: &Declaration) -> Option<usize>
    ensures { result ≡ places.place_if (rule.ties declaration.now.property) declaration.now.place }
{
    if ties(declaration.property) {
        Some(declaration.place)
    } else {
        None
    }
}

// That of the style attributes of the nodes of these numbers, and of all inside them, down to a depth.
#[cycle(first)]
fn first_below(document: &Document, numbers: &[u32], depth: usize) -> Option<usize>
    ensures { result ≡ places.first_of (places.places_in (tree_to depth (state_of document.now) numbers.now)) }
{
    if depth == 0 {
        return None;
    }
    let mut first = None;
    for number in numbers {
        first = earlier(first, first_at(document, *number, depth - 1));
    }
    first
}

// That of the node of this number, where it lives, and of all inside it, down to a depth.
#[cycle(first)]
fn first_at(document: &Document, number: u32, depth: usize) -> Option<usize>
    ensures { result ≡ places.first_of (places.places_in (tree_with ((state_of document.now).node_at number) number (tree_to depth (state_of document.now)) none)) }
{
    match document.node(number) {
        Some(node) => earlier(
            own(&node.kind),
            first_below(document, &node.children, depth),
        ),
        None => None,
    }
}

// That of a node's own style attribute.
fn own(kind: &NodeKind) -> Option<usize>
    ensures { result ≡ places.first_of (places.own_places (what_of kind.now)) }
{
    match kind {
        NodeKind::Element { declarations, .. } => first_in(declarations),
        NodeKind::Text { .. } => None,
    }
}

// The lesser place, where there is one.
fn earlier(one: Option<usize>, other: Option<usize>) -> Option<usize>
    ensures { result ≡ places.lesser one other }
{
    match (one, other) {
        (Some(one), Some(other)) => Some(one.min(other)),
        (Some(place), None) | (None, Some(place)) => Some(place),
        (None, None) => None,
    }
}
