//! Where each node of a document begins.

ghost use Rattle.std.specs.Prelude.{◌≡◌, ◌<◌, ◌≤◌, [], length, IfOk, IfErr, OnOk};
ghost use Rattle.reading.specs.Readers.{mapped};
ghost use Rattle.reading.specs.Stop.{Gives, GivesFront};
ghost use Rattle.html_read.specs.Error.{Told};
ghost use Rattle.html_read.specs.Places as placing;
ghost use Rattle.html_read.specs.Places.{ArePlaces};
ghost use Rattle.html_read.specs.Reading as readers;
ghost use Rattle.html_read.specs.Values.{acting_of, nodes_of};
ghost use Rattle.html_read.specs.Views.{opened_of};
ghost use Rattle.html_read.specs.declared.content.Base.TheVariants as Bases;
ghost use Rattle.reading.specs.declared.stop.Stop.TheVariants as Stops;

use crate::content::{Base, Open, goes_on, markup, with_gap};
use crate::document::{prolog, roots, told};
use crate::error::HtmlError;
use crate::head::maybe_head;
use crate::node::{Attributes, ReadNode};
use crate::tags::{end_tag, start_of};
use html_tokens::{Refusal, end_of, misc};
use reading::Stop;
use std::alloc::Global;

/// The place in bytes of each node of the document that these bytes begin with, in document order: of an element that of
/// the `<` of its start tag, of a text that behind the tag before it. What `read_document` refuses is refused alike.
#[tactic(auto, using(crate::proofs::PlaceLaws::told_alike, crate::proofs::PlaceLaws::told_places))]
pub fn node_places(alloc: Global, bytes: &[u8]) -> Result<Vec<usize>, HtmlError>
    // The answer is that of the reading with places.
    ensures read { Told (length bytes.now) (λ places. places.items) result (placing.placed_input bytes.now) }
    // That is the reading of `read_document`: as many places as nodes, and the same refusals with their places.
    ensures as_read { Told (length bytes.now) (λ places. length places.items) result (mapped (λ whole. length whole.nodes) readers.input bytes.now) }
    // At each place its node is read, and each stands before the next, within the bytes.
    ensures found { IfOk result (λ places. ArePlaces bytes.now places.items) }
{
    answer(alloc, bytes)
}

fn answer(alloc: Global, bytes: &[u8]) -> Result<Vec<usize>, HtmlError>
    ensures { Told (length bytes.now) (λ places. places.items) result (placing.placed_input bytes.now) }
{
    match input(alloc, bytes) {
        Ok(places) => Ok(places),
        Err(stop) => Err(told(bytes.len(), stop)),
    }
}

#[tactic(auto, unfolding(crate::specs::Places::placed_input))]
fn input(alloc: Global, bytes: &[u8]) -> Result<Vec<usize>, Stop<'_, Refusal>>
    ensures { GivesFront (λ places. places.items) result (placing.placed_input bytes.now) }
{
    match str::from_utf8(bytes) {
        Ok(text) => Ok(document(alloc, text)?.0),
        Err(error) => Err(Stop::Refused(Refusal::Utf8, bytes.split_at(error.valid_up_to()).1)),
    }
}

#[tactic(auto, unfolding(crate::specs::Places::placed_document))]
fn document(alloc: Global, text: &str) -> Result<(Vec<usize>, &str), Stop<'_, Refusal>>
    ensures { Gives (λ d. (d.0.items, d.1.now)) result (placing.placed_document (length text.now) text.now) }
{
    let rest = prolog(text)?;
    html(alloc, text.len(), rest)
}

// From the start tag of `html` to its end tag.
#[tactic(auto, unfolding(crate::specs::Places::placed_html))]
fn html(alloc: Global, size: usize, text: &str) -> Result<(Vec<usize>, &str), Stop<'_, Refusal>>
    ensures { Gives (λ h. (h.0.items, h.1.now)) result (placing.placed_html size text.now) }
{
    let place = size.saturating_sub(text.len());
    let (attributes, rest) = start_of(alloc, size, "<html", false, text)?;
    let rest = misc("<!", rest)?;
    let (_, rest) = maybe_head(alloc, size, rest)?;
    let (places, rest) = body(alloc, size, attributes, place, rest)?;
    let rest = misc("<!", rest)?;
    Ok((places, end_of("html", rest)?))
}

// `body` with all that stands in it; `html` begins at this place.
#[tactic(auto, unfolding(crate::specs::Places::placed_body))]
fn body(
    alloc: Global,
    size: usize,
    html: Attributes,
    place: usize,
    text: &str,
) -> Result<(Vec<usize>, &str), Stop<'_, Refusal>>
    ensures { Gives (λ b. (b.0.items, b.1.now)) result (placing.placed_body size (acting_of html) place text.now) }
{
    let (attributes, rest) = start_of(alloc, size, "<body", false, text)?;
    let mut nodes = roots(alloc, html, attributes)?;
    let mut places = vec![in alloc; place, size.saturating_sub(text.len())]?;
    let rest = content(alloc, size, &mut nodes, &mut places, rest)?;
    Ok((places, end_tag("body", rest)?))
}

// The places of all nodes that stand in `body`, behind those so far.
#[tactic(auto, unfolding(crate::specs::Places::placed_content))]
fn content<'a>(
    alloc: Global,
    size: usize,
    nodes: &mut Vec<ReadNode>,
    places: &mut Vec<usize>,
    text: &'a str,
) -> Result<&'a str, Stop<'a, Refusal>>
    ensures { Gives (λ rest. (places.new.items, rest.now)) result
        (placing.placed_content size (placing.placed (readers.content_of [] (nodes_of nodes.old.items)) places.old.items) text.now) }
{
    let mut opened = Vec::new(alloc);
    let mut rest = placed_gap(alloc, size, &opened, nodes, places, text)?;
    while goes_on(Base::Body, &opened, rest) {
        rest = placed_turn(alloc, size, &mut opened, nodes, places, rest)?;
    }
    Ok(rest)
}

// A tag, and the text behind it.
#[tactic(auto, unfolding(crate::specs::Places::placed_turn))]
fn placed_turn<'a>(
    alloc: Global,
    size: usize,
    opened: &mut Vec<Open<'a>>,
    nodes: &mut Vec<ReadNode>,
    places: &mut Vec<usize>,
    text: &'a str,
) -> Result<&'a str, Stop<'a, Refusal>>
    ensures read { Gives (λ rest. (placing.placed (readers.content_of (opened_of opened.new.items) (nodes_of nodes.new.items)) places.new.items, rest.now)) result
        (placing.placed_turn size (placing.placed (readers.content_of (opened_of opened.old.items) (nodes_of nodes.old.items)) places.old.items) text.now) }
    ensures shorter { IfOk result (λ rest. length rest.now < length text.now) }
{
    let rest = placed_tag(alloc, size, opened, nodes, places, text)?;
    placed_gap(alloc, size, opened, nodes, places, rest)
}

#[tactic(auto, unfolding(crate::specs::Places::placed_step))]
fn placed_tag<'a>(
    alloc: Global,
    size: usize,
    opened: &mut Vec<Open<'a>>,
    nodes: &mut Vec<ReadNode>,
    places: &mut Vec<usize>,
    text: &'a str,
) -> Result<&'a str, Stop<'a, Refusal>>
    ensures read { Gives (λ rest. (placing.placed (readers.content_of (opened_of opened.new.items) (nodes_of nodes.new.items)) places.new.items, rest.now)) result
        (placing.placed_step size (readers.markup size Bases.Body) (placing.placed (readers.content_of (opened_of opened.old.items) (nodes_of nodes.old.items)) places.old.items) text.now) }
    ensures shorter { IfOk result (λ rest. length rest.now < length text.now) }
{
    let before = nodes.len();
    let rest = markup(alloc, size, Base::Body, opened, nodes, text)?;
    put_place(before, nodes.len(), size.saturating_sub(text.len()), places)?;
    Ok(rest)
}

#[tactic(auto, unfolding(crate::specs::Places::placed_step))]
fn placed_gap<'a>(
    alloc: Global,
    size: usize,
    opened: &[Open<'a>],
    nodes: &mut Vec<ReadNode>,
    places: &mut Vec<usize>,
    text: &'a str,
) -> Result<&'a str, Stop<'a, Refusal>>
    ensures read { Gives (λ rest. (placing.placed (readers.content_of (opened_of opened.now) (nodes_of nodes.new.items)) places.new.items, rest.now)) result
        (placing.placed_step size (readers.with_gap Bases.Body) (placing.placed (readers.content_of (opened_of opened.now) (nodes_of nodes.old.items)) places.old.items) text.now) }
    ensures shorter { IfOk result (λ rest. length rest.now ≤ length text.now) }
{
    let before = nodes.len();
    let rest = with_gap(alloc, Base::Body, opened, nodes, text)?;
    put_place(before, nodes.len(), size.saturating_sub(text.len()), places)?;
    Ok(rest)
}

// Puts the place behind the others where a node came to those before.
fn put_place(
    before: usize,
    now: usize,
    place: usize,
    places: &mut Vec<usize>,
) -> Result<(), Stop<'static, Refusal>>
    ensures put { OnOk result (places.new.items ≡ placing.with_place before now place places.old.items) }
    ensures memory { IfErr result (λ stop. stop ≡ Stops.Memory) }
{
    if before < now {
        places.push(place)?;
    }
    Ok(())
}
