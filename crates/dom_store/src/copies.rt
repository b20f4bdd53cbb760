//! Copies of what was read, which are the same texts and declarations.

ghost use Rattle.std.specs.Prelude.{◌≡◌, ◌<◌, ◌^◌, map, option_map, IfOk, IfSome};
ghost use Rattle.std.specs.String.{string_bytes};
ghost use Rattle.html_read.specs.Values.{kind_of};
ghost use Rattle.dom_store.specs.Opening as opening;
ghost use Rattle.dom_store.specs.State.{entry_of, what_of};

use crate::node::{Node, NodeKind, NodeNumbers};
use css_types::{Declaration, Declarations};
use html_read::{ReadKind, ReadNode};
use letters::{LetterList, Letters};
use std::alloc::{AllocError, Global};

/// The node that was read, with these children and these own declarations.
pub(crate) fn node_of(
    alloc: Global,
    read: &ReadNode,
    own: &[Declaration],
    children: NodeNumbers,
) -> Result<Node, AllocError>
    requires { IfSome read.now.parent (λ parent. parent < 2 ^ 32) }
    ensures { IfOk result (λ node. entry_of node ≡ record { parent = read.now.parent; children = children.items; what = opening.what_of (kind_of read.now.kind) own.now }) }
{
    Ok(Node {
        parent: read.parent.map(|place| place as u32),
        children,
        kind: copy_of_kind(alloc, &read.kind, own)?,
    })
}

/// A copy of a node.
pub(crate) fn copy_of_node(alloc: Global, node: &Node) -> Result<Node, AllocError>
    ensures { IfOk result (λ copy. entry_of copy ≡ entry_of node.now) }
{
    let mut children = Vec::new(alloc);
    children.extend_from_slice(&node.children)?;
    Ok(Node {
        parent: node.parent,
        children,
        kind: copy_of_what(alloc, &node.kind)?,
    })
}

/// A copy of what a node is.
pub(crate) fn copy_of_what(alloc: Global, kind: &NodeKind) -> Result<NodeKind, AllocError>
    ensures { IfOk result (λ copy. what_of copy ≡ what_of kind.now) }
{
    match kind {
        NodeKind::Element {
            tag,
            id,
            classes,
            dir,
            declarations,
        } => Ok(NodeKind::Element {
            tag: *tag,
            id: copy_of_id(id)?,
            classes: copy_of_texts(alloc, classes)?,
            dir: *dir,
            declarations: copy_of_declarations(alloc, declarations)?,
        }),
        NodeKind::Text { text } => Ok(NodeKind::Text {
            text: text.clone()?,
        }),
    }
}

/// What was read, with these own declarations.
pub(crate) fn copy_of_kind(
    alloc: Global,
    kind: &ReadKind,
    own: &[Declaration],
) -> Result<NodeKind, AllocError>
    ensures { IfOk result (λ copy. what_of copy ≡ opening.what_of (kind_of kind.now) own.now) }
{
    match kind {
        ReadKind::Element { tag, attributes } => Ok(NodeKind::Element {
            tag: *tag,
            id: copy_of_id(&attributes.id)?,
            classes: copy_of_texts(alloc, &attributes.classes)?,
            dir: attributes.dir,
            declarations: copy_of_declarations(alloc, own)?,
        }),
        ReadKind::Text { text } => Ok(NodeKind::Text {
            text: text.clone()?,
        }),
    }
}

fn copy_of_id(id: &Option<Letters>) -> Result<Option<Letters>, AllocError>
    ensures { IfOk result (λ copy. option_map (λ t. string_bytes t) copy ≡ option_map (λ t. string_bytes t) id.now) }
{
    match id {
        Some(letters) => Ok(Some(letters.clone()?)),
        None => Ok(None),
    }
}

/// Copies of texts.
pub(crate) fn copy_of_texts(alloc: Global, texts: &[Letters]) -> Result<LetterList, AllocError>
    ensures { IfOk result (λ copy. map (λ t. string_bytes t) copy.items ≡ map (λ t. string_bytes t) texts.now) }
{
    let mut copy = Vec::with_capacity(alloc, texts.len())?;
    for text in texts {
        copy.push(text.clone()?)?;
    }
    Ok(copy)
}

/// A copy of declarations.
pub(crate) fn copy_of_declarations(
    alloc: Global,
    own: &[Declaration],
) -> Result<Declarations, AllocError>
    ensures { IfOk result (λ copy. copy.items ≡ own.now) }
{
    let mut copy = Vec::new(alloc);
    copy.extend_from_slice(own)?;
    Ok(copy)
}
