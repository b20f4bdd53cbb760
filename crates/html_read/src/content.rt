//! What stands in an element, by a list of those that are open.

ghost use Rattle.std.specs.Prelude.{◌≡◌, ◌≤◌, ◌<◌, List, length, IfOk, IfErr, OnOk};
ghost use Rattle.std.specs.String.{string_bytes};
ghost use Rattle.reading.specs.Stop.{Gives};
ghost use Rattle.html_read.specs.Reading as readers;
ghost use Rattle.html_read.specs.Tree.{with_text};
ghost use Rattle.html_read.specs.Values.{Node, nodes_of};
ghost use Rattle.html_read.specs.Views.{start_of, opened_of};
ghost use Rattle.reading.specs.declared.stop.Stop.TheVariants as Stops;

use crate::node::{ReadKind, ReadNode};
use crate::tags::{Start, end_tag, start_tag};
use html_tokens::{Refusal, gap, is_void};
use letters::{Letters, SharedText};
use reading::{Stop, starts, strip};
use std::alloc::Global;

/// Where the outermost items stand: in `body`, up to its end tag, or in nothing, up to the end of the text.
#[derive(Clone, Copy, PartialEq, Eq)]
pub(crate) enum Base {
    Body,
    Fragment,
}

/// An element that is open: its name as it is written, and its place in the list of nodes.
#[derive(Clone, Copy)]
pub(crate) struct Open<'a> {
    name: &'a str,
    number: usize,
}

/// Puts the nodes of all that stands in the base behind those so far.
#[tactic(auto, unfolding(crate::specs::Reading::content))]
pub(crate) fn content<'a>(
    alloc: Global,
    size: usize,
    base: Base,
    nodes: &mut Vec<ReadNode>,
    text: &'a str,
) -> Result<&'a str, Stop<'a, Refusal>>
    ensures read { Gives (λ rest. (nodes_of nodes.new.items, rest.now)) result (readers.content size base (nodes_of nodes.old.items) text.now) }
    ensures shorter { IfOk result (λ rest. length rest.now ≤ length text.now) }
{
    let mut opened = Vec::new(alloc);
    let mut rest = with_gap(alloc, base, &opened, nodes, text)?;
    while goes_on(base, &opened, rest) {
        rest = turn(alloc, size, base, &mut opened, nodes, rest)?;
    }
    Ok(rest)
}

/// There is more to read.
#[tactic(auto, unfolding(crate::specs::Reading::goes_on))]
pub(crate) fn goes_on(base: Base, opened: &[Open<'_>], text: &str) -> bool
    ensures { (nodes : List Node) → result ≡ readers.goes_on base (readers.content_of (opened_of opened.now) nodes) text.now }
{
    !(opened.is_empty() && base_ends(base, text))
}

fn base_ends(base: Base, text: &str) -> bool
    ensures { result ≡ readers.base_ends base text.now }
{
    match base {
        Base::Body => starts("</", text),
        Base::Fragment => text.is_empty(),
    }
}

// A tag, and the text behind it.
#[tactic(auto, unfolding(crate::specs::Reading::turn))]
fn turn<'a>(
    alloc: Global,
    size: usize,
    base: Base,
    opened: &mut Vec<Open<'a>>,
    nodes: &mut Vec<ReadNode>,
    text: &'a str,
) -> Result<&'a str, Stop<'a, Refusal>>
    ensures read { Gives (λ rest. (readers.content_of (opened_of opened.new.items) (nodes_of nodes.new.items), rest.now)) result
        (readers.turn size base (readers.content_of (opened_of opened.old.items) (nodes_of nodes.old.items)) text.now) }
    ensures shorter { IfOk result (λ rest. length rest.now < length text.now) }
{
    let rest = markup(alloc, size, base, opened, nodes, text)?;
    with_gap(alloc, base, opened, nodes, rest)
}

/// A start tag, an end tag or a `br`.
#[tactic(auto, unfolding(crate::specs::Reading::markup))]
pub(crate) fn markup<'a>(
    alloc: Global,
    size: usize,
    base: Base,
    opened: &mut Vec<Open<'a>>,
    nodes: &mut Vec<ReadNode>,
    text: &'a str,
) -> Result<&'a str, Stop<'a, Refusal>>
    ensures read { Gives (λ rest. (readers.content_of (opened_of opened.new.items) (nodes_of nodes.new.items), rest.now)) result
        (readers.markup size base (readers.content_of (opened_of opened.old.items) (nodes_of nodes.old.items)) text.now) }
    ensures shorter { IfOk result (λ rest. length rest.now < length text.now) }
{
    if starts("</", text) {
        ending(opened, text)
    } else {
        let (start, rest) = start_tag(alloc, size, text)?;
        begin(base, start, opened, nodes)?;
        Ok(rest)
    }
}

// The innermost open element ends.
#[tactic(auto, unfolding(reading::specs::Readers::after))]
fn ending<'a>(opened: &mut Vec<Open<'a>>, text: &'a str) -> Result<&'a str, Stop<'a, Refusal>>
    ensures read { (nodes : List Node) → Gives (λ rest. (readers.content_of (opened_of opened.new.items) nodes, rest.now)) result
        (readers.ending (opened_of opened.old.items) nodes text.now) }
    ensures shorter { IfOk result (λ rest. length rest.now < length text.now) }
{
    match opened.pop() {
        Some(open) => end_tag(open.name, text),
        None => Err(Stop::Refused(Refusal::Syntax, strip("<", text)?.as_bytes())),
    }
}

// An element begins; a `br` is whole at once.
#[tactic(auto, unfolding(crate::specs::Reading::begun))]
fn begin<'a>(
    base: Base,
    start: Start<'a>,
    opened: &mut Vec<Open<'a>>,
    nodes: &mut Vec<ReadNode>,
) -> Result<(), Stop<'a, Refusal>>
    ensures begun { OnOk result (readers.content_of (opened_of opened.new.items) (nodes_of nodes.new.items)
        ≡ readers.begun base (readers.content_of (opened_of opened.old.items) (nodes_of nodes.old.items)) (start_of start.entry)) }
    ensures memory { IfErr result (λ stop. stop ≡ Stops.Memory) }
{
    let number = nodes.len();
    let parent = parent_in(base, opened);
    nodes.push(ReadNode {
        parent,
        kind: ReadKind::Element {
            tag: start.tag,
            attributes: start.attributes,
        },
    })?;
    if !is_void(start.name) {
        opened.push(Open {
            name: start.name,
            number,
        })?;
    }
    Ok(())
}

// The innermost open element, or what the base stands in.
fn parent_in(base: Base, opened: &[Open<'_>]) -> Option<usize>
    ensures { result ≡ readers.parent_in base (opened_of opened.now) }
{
    match opened.last() {
        Some(open) => Some(open.number),
        None => base_parent(base),
    }
}

fn base_parent(base: Base) -> Option<usize>
    ensures { result ≡ readers.base_parent base }
{
    match base {
        Base::Body => Some(1),
        Base::Fragment => None,
    }
}

/// The text up to the next tag; an empty one is no node.
#[tactic(auto, unfolding(crate::specs::Reading::with_gap))]
pub(crate) fn with_gap<'a>(
    alloc: Global,
    base: Base,
    opened: &[Open<'a>],
    nodes: &mut Vec<ReadNode>,
    text: &'a str,
) -> Result<&'a str, Stop<'a, Refusal>>
    ensures read { Gives (λ rest. (readers.content_of (opened_of opened.now) (nodes_of nodes.new.items), rest.now)) result
        (readers.with_gap base (readers.content_of (opened_of opened.now) (nodes_of nodes.old.items)) text.now) }
    ensures shorter { IfOk result (λ rest. length rest.now ≤ length text.now) }
{
    let (letters, rest) = gap(alloc, text)?;
    with_text(alloc, parent_in(base, opened), letters, nodes)?;
    Ok(rest)
}

fn with_text(
    alloc: Global,
    parent: Option<usize>,
    text: Letters,
    nodes: &mut Vec<ReadNode>,
) -> Result<(), Stop<'static, Refusal>>
    ensures put { OnOk result (nodes_of nodes.new.items ≡ with_text parent (string_bytes text) (nodes_of nodes.old.items)) }
    ensures memory { IfErr result (λ stop. stop ≡ Stops.Memory) }
{
    if !text.is_empty() {
        let text = SharedText::new(alloc, text)?;
        nodes.push(ReadNode {
            parent,
            kind: ReadKind::Text { text },
        })?;
    }
    Ok(())
}
