//! Documents and fragments.

ghost use Rattle.std.specs.Prelude.{◌≡◌, ◌≤◌, drop, length, IfOk, IfErr};
ghost use Rattle.std.specs.Str.{IsUtf8};
ghost use Rattle.reading.specs.Readers.{Answers};
ghost use Rattle.reading.specs.Stop.{Gives};
ghost use Rattle.html_read.specs.Error.{Tells, Told};
ghost use Rattle.reading.specs.Stop.{GivesFront};
ghost use Rattle.html_read.specs.Answered.{IsTheDocument, IsTheFragment, RefusesDocument, RefusesFragment};
ghost use Rattle.html_read.specs.Reading as readers;
ghost use Rattle.html_read.specs.Shape.{AreTexts, IsShaped, IsFragmentShaped, IsInDocumentOrder, text_bytes};
ghost use Rattle.html_read.specs.Tree.{AreNodes, roots};
ghost use Rattle.html_read.specs.Values.{acting_of, nodes_of, sheets_of, whole_of};
ghost use Rattle.reading.specs.declared.stop.Stop.TheVariants as Stops;

use crate::content::{Base, content};
use crate::error::HtmlError;
use crate::head::maybe_head;
use crate::node::{Attributes, PlacedText, ReadDocument, ReadKind, ReadNode, ReadNodes};
use crate::tags::{end_tag, start_of};
use html_tokens::{Refusal, Tag, doctype, end_of, misc};
use reading::{Stop, starts, strip};
use std::alloc::Global;

/// Reads a document, from the first byte to past `</html>`. Bytes may stand behind it.
#[tactic(auto, using(crate::proofs::AnsweredLaws::told_document, crate::proofs::AnsweredLaws::told_no_document, crate::proofs::AnsweredLaws::told_shape, crate::proofs::NodesLaws::told_nodes, crate::proofs::EndLaws::told_ordered, crate::proofs::EndLaws::told_texts, crate::proofs::EndLaws::told_bytes, crate::proofs::EndLaws::told_within, crate::proofs::EndLaws::told_behind))]
pub fn read_document(alloc: Global, bytes: &[u8]) -> Result<ReadDocument, HtmlError>
    // The answer is that of the reading: the document, or the refusal with its place.
    ensures read { Told (length bytes.now) whole_of result (readers.input bytes.now) }
    // The bytes begin with this document and no other; where they are refused they begin with none.
    ensures found { IfOk result (λ d. IsTheDocument bytes.now (whole_of d)) }
    ensures refused { IfErr result (λ error. RefusesDocument bytes.now error) }
    // `html` stands first, `body` second, and each other node within `body`; they are made of tags and texts in it.
    ensures shaped { IfOk result (λ d. IsShaped (nodes_of d.nodes.items)) }
    ensures nodes { IfOk result (λ d. AreNodes (nodes_of d.nodes.items)) }
    ensures ordered { IfOk result (λ d. IsInDocumentOrder (nodes_of d.nodes.items)) }
    // No text is empty, each is of the repertoire, no two are neighbours, and together they aren't longer than the input.
    ensures texts { IfOk result (λ d. AreTexts (nodes_of d.nodes.items)) }
    ensures bytes { IfOk result (λ d. text_bytes (nodes_of d.nodes.items) ≤ length bytes.now) }
    // The document ends within the bytes, and what stands behind it is a text of its own.
    ensures within { IfOk result (λ d. d.end ≤ length bytes.now) }
    ensures behind { IfOk result (λ d. IsUtf8 (drop d.end bytes.now)) }
{
    answer_document(alloc, bytes)
}

fn answer_document(alloc: Global, bytes: &[u8]) -> Result<ReadDocument, HtmlError>
    ensures { Told (length bytes.now) whole_of result (readers.input bytes.now) }
{
    match input(alloc, bytes) {
        Ok(document) => Ok(document),
        Err(stop) => Err(told(bytes.len(), stop)),
    }
}

/// Reads what may stand in an element, to the end of the text.
#[tactic(auto, using(crate::proofs::AnsweredLaws::told_fragment, crate::proofs::AnsweredLaws::told_no_fragment, crate::proofs::AnsweredLaws::told_fragment_shape, crate::proofs::EndLaws::told_fragment_ordered, crate::proofs::EndLaws::told_fragment_texts, crate::proofs::EndLaws::told_fragment_bytes))]
pub fn read_fragment(alloc: Global, text: &str) -> Result<ReadNodes, HtmlError>
    // The answer is that of the reading: the nodes, or the refusal with its place.
    ensures read { Told (length text.now) (λ nodes. nodes_of nodes.items) result (readers.fragment text.now) }
    // The text is this fragment and no other; where it is refused it is none.
    ensures found { IfOk result (λ nodes. IsTheFragment text.now (nodes_of nodes.items)) }
    ensures refused { IfErr result (λ error. RefusesFragment text.now error) }
    // Each node stands in nothing, or in an element before it.
    ensures shaped { IfOk result (λ nodes. IsFragmentShaped (nodes_of nodes.items)) }
    ensures ordered { IfOk result (λ nodes. IsInDocumentOrder (nodes_of nodes.items)) }
    // No text is empty, each is of the repertoire, no two are neighbours, and together they aren't longer than the input.
    ensures texts { IfOk result (λ nodes. AreTexts (nodes_of nodes.items)) }
    ensures bytes { IfOk result (λ nodes. text_bytes (nodes_of nodes.items) ≤ length text.now) }
{
    answer_fragment(alloc, text)
}

fn answer_fragment(alloc: Global, text: &str) -> Result<ReadNodes, HtmlError>
    ensures { Told (length text.now) (λ nodes. nodes_of nodes.items) result (readers.fragment text.now) }
{
    match fragment(alloc, text) {
        Ok(nodes) => Ok(nodes),
        Err(stop) => Err(told(text.len(), stop)),
    }
}

/// The refusal with its place in an input of this size.
pub(crate) fn told(size: usize, stop: Stop<'_, Refusal>) -> HtmlError
    ensures { Tells size stop.entry result }
{
    match stop {
        Stop::Refused(kind, left) => HtmlError::Refused {
            kind,
            place: size.saturating_sub(left.len()),
        },
        Stop::Memory => HtmlError::Memory,
    }
}

#[tactic(auto, unfolding(crate::specs::Reading::fragment))]
fn fragment(alloc: Global, text: &str) -> Result<ReadNodes, Stop<'_, Refusal>>
    ensures { GivesFront (λ nodes. nodes_of nodes.items) result (readers.fragment text.now) }
{
    let mut nodes = Vec::new(alloc);
    content(alloc, text.len(), Base::Fragment, &mut nodes, text)?;
    Ok(nodes)
}

#[tactic(auto, unfolding(crate::specs::Reading::input))]
fn input(alloc: Global, bytes: &[u8]) -> Result<ReadDocument, Stop<'_, Refusal>>
    ensures { GivesFront whole_of result (readers.input bytes.now) }
{
    match str::from_utf8(bytes) {
        Ok(text) => Ok(document(alloc, text)?.0),
        Err(error) => Err(Stop::Refused(Refusal::Utf8, bytes.split_at(error.valid_up_to()).1)),
    }
}

#[tactic(auto, unfolding(crate::specs::Reading::document, crate::specs::Reading::ended))]
fn document(alloc: Global, text: &str) -> Result<(ReadDocument, &str), Stop<'_, Refusal>>
    ensures { Gives (λ d. (whole_of d.0, d.1.now)) result (readers.document (length text.now) text.now) }
{
    let size = text.len();
    let rest = prolog(text)?;
    let (nodes, sheets, rest) = html(alloc, size, rest)?;
    let document = ReadDocument {
        nodes,
        sheets,
        end: size.saturating_sub(rest.len()),
    };
    Ok((document, rest))
}

/// What stands before the start tag of `html`.
#[tactic(auto, unfolding(crate::specs::Reading::prolog))]
pub(crate) fn prolog(text: &str) -> Result<&str, &[u8]>
    ensures { Answers (λ rest. (tt, rest.now)) result (readers.prolog text.now) }
{
    let rest = maybe_mark(text)?;
    let rest = misc("<!-", rest)?;
    maybe_doctype(rest)
}

#[tactic(auto, unfolding(crate::specs::Reading::maybe_mark, crate::specs::Reading::mark))]
fn maybe_mark(text: &str) -> Result<&str, &[u8]>
    ensures { Answers (λ rest. (tt, rest.now)) result (readers.maybe_mark text.now) }
{
    if starts("\u{FEFF}", text) {
        strip("\u{FEFF}", text)
    } else {
        Ok(text)
    }
}

#[tactic(auto, unfolding(crate::specs::Reading::maybe_doctype))]
fn maybe_doctype(text: &str) -> Result<&str, &[u8]>
    ensures { Answers (λ rest. (tt, rest.now)) result (readers.maybe_doctype text.now) }
{
    if starts("<!", text) {
        misc("<!", doctype(text)?)
    } else {
        Ok(text)
    }
}

// From the start tag of `html` to its end tag.
#[tactic(auto, unfolding(crate::specs::Reading::html))]
fn html(
    alloc: Global,
    size: usize,
    text: &str,
) -> Result<(Vec<ReadNode>, Vec<PlacedText>, &str), Stop<'_, Refusal>>
    ensures { Gives (λ h. ((nodes_of h.0.items, sheets_of h.1.items), h.2.now)) result (readers.html size text.now) }
{
    let (attributes, rest) = start_of(alloc, size, "<html", false, text)?;
    let rest = misc("<!", rest)?;
    let (sheets, rest) = maybe_head(alloc, size, rest)?;
    let (nodes, rest) = body(alloc, size, attributes, rest)?;
    let rest = misc("<!", rest)?;
    Ok((nodes, sheets, end_of("html", rest)?))
}

// `body` with all that stands in it, and the nodes of the document.
#[tactic(auto, unfolding(crate::specs::Reading::body))]
fn body(
    alloc: Global,
    size: usize,
    html: Attributes,
    text: &str,
) -> Result<(Vec<ReadNode>, &str), Stop<'_, Refusal>>
    ensures { Gives (λ b. (nodes_of b.0.items, b.1.now)) result (readers.body size (acting_of html) text.now) }
{
    let (attributes, rest) = start_of(alloc, size, "<body", false, text)?;
    let mut nodes = roots(alloc, html, attributes)?;
    let rest = content(alloc, size, Base::Body, &mut nodes, rest)?;
    Ok((nodes, end_tag("body", rest)?))
}

/// The nodes of `html` and `body`.
pub(crate) fn roots(
    alloc: Global,
    html: Attributes,
    body: Attributes,
) -> Result<Vec<ReadNode>, Stop<'static, Refusal>>
    ensures roots { IfOk result (λ nodes. nodes_of nodes.items ≡ roots (acting_of html) (acting_of body)) }
    ensures memory { IfErr result (λ stop. stop ≡ Stops.Memory) }
{
    let mut nodes = Vec::new(alloc);
    nodes.push(ReadNode {
        parent: None,
        kind: ReadKind::Element {
            tag: Tag::Html,
            attributes: html,
        },
    })?;
    nodes.push(ReadNode {
        parent: Some(0),
        kind: ReadKind::Element {
            tag: Tag::Body,
            attributes: body,
        },
    })?;
    Ok(nodes)
}
