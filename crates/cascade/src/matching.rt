//! Which elements a selector matches (Selectors 3, 4 to 8).

ghost use Rattle.std.specs.Prelude.{◌≡◌, ◌-◌, ◌≤◌, ℕ, List, IfSome, length, map, option_map, reverse};
ghost use Rattle.std.specs.String.{string_bytes};
ghost use Rattle.css_types.specs.Rule.{compound_of, compounds_of, selector_of};
ghost use Rattle.dom_store.specs.State.{line, state_of, what_of};
ghost use Rattle.cascade.specs.Chains as chains;
ghost use Rattle.cascade.specs.ClassSets.{AreClasses, AreOf, is_in, set_at};
ghost use Rattle.cascade.specs.Line.{whats_of};
ghost use Rattle.cascade.specs.Matching as definitions;

use crate::class_sets::{ClassSet, ClassSets};
use crate::line::line_of;
use crate::seen::Seen;
use css_types::{Joint, Part, Selector};
use dom_store::{Document, Node, NodeKind};
use html_tokens::Tag;
use letters::Letters;

/// What is left to match, and the nodes above.
type Left<'p, 'l, 'n> = (&'p [Part], &'l [&'n Node]);

/// Whether the selector matches the element. It matches no text, and nothing where no such node lives. Each compound is
/// compared with each node of the line at most once. Takes no memory.
pub fn matches(s: &Selector, document: &Document, node: u32) -> bool
    ensures { result ≡ definitions.matches (selector_of s.now) (line (state_of document.now) node) }
{
    let none = ClassSets::none();
    match line_of(document, node) {
        Some(line) => matches_line(&s.parts, line.seen(&none)),
        None => matches_line(&s.parts, Seen::plain(&[], &none)),
    }
}

/// Whether a selector of these parts matches the first node of a line, above which the others stand.
pub(crate) fn matches_line(parts: &[Part], line: Seen<'_, '_>) -> bool
    ensures { result ≡ definitions.matches (compounds_of parts.now) (whats_of line.entry.nodes.now) }
{
    let Some((mut left, mut above)) = behind_chain(parts, line.nodes, line.sets) else {
        return false;
    };
    while !left.is_empty() {
        let Some((parts, line)) = behind_nearest(left, above, line.sets) else {
            return false;
        };
        left = parts;
        above = line;
    }
    true
}

// What is left behind the last chain of compounds joined by `>`, at the first place where that matches: what is left
// above it contains what is left above any other.
fn behind_nearest<'p, 'l, 'n>(
    parts: &'p [Part],
    line: &'l [&'n Node],
    sets: &ClassSets,
) -> Option<Left<'p, 'l, 'n>>
    requires { AreOf sets.now line.now }
    ensures sets { IfSome result (λ left. AreOf sets.now left.1.now) }
    ensures found { option_map (λ left. (reverse (compounds_of left.0.now), whats_of left.1.now)) result ≡ chains.behind_nearest (reverse (compounds_of parts.now)) (whats_of line.now) }
    ensures shorter { IfSome result (λ left. length left.0.now ≤ length parts.now - 1) }
{
    let mut rest = line;
    loop {
        if let Some(left) = behind_chain(parts, rest, sets) {
            return Some(left);
        }
        let [_, above @ ..] = rest else {
            return None;
        };
        rest = above;
    }
}

// What is left behind the last chain, where that matches from the first of the line on.
fn behind_chain<'p, 'l, 'n>(
    parts: &'p [Part],
    line: &'l [&'n Node],
    sets: &ClassSets,
) -> Option<Left<'p, 'l, 'n>>
    requires { AreOf sets.now line.now }
    ensures sets { IfSome result (λ left. AreOf sets.now left.1.now) }
    ensures found { option_map (λ left. (reverse (compounds_of left.0.now), whats_of left.1.now)) result ≡ chains.behind_chain (reverse (compounds_of parts.now)) (whats_of line.now) }
    ensures shorter { IfSome result (λ left. length left.0.now ≤ length parts.now - 1) }
{
    let [left @ .., last] = parts else {
        return Some((parts, line));
    };
    let [node, above @ ..] = line else {
        return None;
    };
    if !fits(last, &node.kind, sets, above.len()) {
        return None;
    }
    match last.joint {
        Joint::Child => behind_chain(left, above, sets),
        Joint::Descendant => Some((left, above)),
    }
}

// Whether the compound fits the node, above which stand so many.
fn fits(part: &Part, kind: &NodeKind, sets: &ClassSets, height: usize) -> bool
    requires { AreClasses (set_at sets.now height) (what_of kind.now) }
    ensures { result ≡ definitions.fits (compound_of part.now) (what_of kind.now) }
{
    match kind {
        NodeKind::Element {
            tag,
            id,
            classes,
            ..
        } => {
            fits_type(&part.tag, *tag)
                && has_classes_in(sets.at(height), classes, &part.classes)
                && has_ids(id, &part.ids)
        }
        NodeKind::Text { .. } => false,
    }
}

fn fits_type(name: &Option<Letters>, tag: Tag) -> bool
    ensures { result ≡ definitions.fits_type (option_map (λ t. string_bytes t) name.now) tag }
{
    match name {
        Some(name) => name.as_str() == tag.name(),
        None => true,
    }
}

// Whether an element that has these classes of its own has each of those asked for. Where there is a set of its own
// classes, that is looked into in place of the list.
fn has_classes_in(set: Option<&ClassSet>, own: &[Letters], classes: &[Letters]) -> bool
    requires { IfSome set (λ set. (class : List ℕ) → is_in set.now class ≡ definitions.has_class (map (λ c. string_bytes c) own.now) class) }
    ensures { result ≡ definitions.each (definitions.has_class (map (λ c. string_bytes c) own.now)) (map (λ c. string_bytes c) classes.now) }
{
    match set {
        Some(set) => set.has_each(classes),
        None => has_classes(own, classes),
    }
}

fn has_classes(own: &[Letters], classes: &[Letters]) -> bool
    ensures { result ≡ definitions.each (definitions.has_class (map (λ c. string_bytes c) own.now)) (map (λ c. string_bytes c) classes.now) }
{
    classes.iter().all(|class| has_class(own, class))
}

fn has_class(own: &[Letters], class: &Letters) -> bool
    ensures { result ≡ definitions.has_class (map (λ c. string_bytes c) own.now) (string_bytes class.now) }
{
    own.iter().any(|other| class.as_str() == other.as_str())
}

fn has_ids(own: &Option<Letters>, ids: &[Letters]) -> bool
    ensures { result ≡ definitions.each (definitions.has_id (option_map (λ i. string_bytes i) own.now)) (map (λ i. string_bytes i) ids.now) }
{
    ids.iter().all(|id| has_id(own, id))
}

fn has_id(own: &Option<Letters>, id: &Letters) -> bool
    ensures { result ≡ definitions.has_id (option_map (λ i. string_bytes i) own.now) (string_bytes id.now) }
{
    match own {
        Some(own) => id.as_str() == own.as_str(),
        None => false,
    }
}
