//! The boxes that a styled tree makes (CSS 2, 9.2.1 and 9.2.2).

ghost use Rattle.std.specs.Prelude.{◌≡◌, IfOk};
ghost use Rattle.style_types.specs.Tree.{nodes_of, all_nodes_of};
ghost use Rattle.box_gen.specs.Tree.{boxes_of};
ghost use Rattle.box_gen.specs.Parts.{has_block};
ghost use Rattle.box_gen.specs.Boxes.{content, root_boxes};
ghost use Rattle.box_gen.specs.declared.role.Role.TheVariants as roles;
ghost use Rattle.box_gen.specs.Building.{filling_of, no_filling, role_in, Puts};

use crate::filling::Filling;
use crate::role::{Role, role_of};
use crate::tree::BoxTree;
use std::alloc::{AllocError, Global};
use style_types::{SharedStyle, StyledKind, StyledNode};

/// The boxes that a styled tree makes: that of the root, whatever its display, with all inside it. A block-level box in an inline
/// box cuts that into pieces. Takes memory for the boxes, and time in proportion to the tree and, for each block-level box, to the
/// inline boxes that it stands in up to its block container.
pub fn boxes(alloc: Global, styled: &StyledNode) -> Result<BoxTree, AllocError>
    ensures { IfOk result (λ tree. boxes_of tree ≡ root_boxes (nodes_of styled.now)) }
{
    let tree = container(alloc, styled)?;
    Ok(tree)
}

// The box of a node that is a block container, whatever its display.
#[cycle(container)]
fn container(alloc: Global, node: &StyledNode) -> Result<BoxTree, AllocError>
    ensures { IfOk result (λ tree. boxes_of tree ≡ root_boxes (nodes_of node.now)) }
{
    let mut filling = empty(alloc, node.node, &node.style, &node.children)?;
    put_nodes(alloc, &node.children, &mut filling)?;
    filling.finished(alloc)
}

// A container of this node and style, with nothing put. Most hold one text, or nothing but block-level boxes: so there is room for
// as many as the first of these nodes says.
fn empty(
    alloc: Global,
    number: u32,
    style: &SharedStyle,
    inside: &[StyledNode],
) -> Result<Filling, AllocError>
    ensures { IfOk result (λ filling. filling_of filling ≡ no_filling number style.now) }
{
    let mut filling = Filling::new(alloc, number, style)?;
    if let Some(first) = inside.first() {
        filling.make_room(role_of(first), inside.len())?;
    }
    Ok(filling)
}

// Puts what these nodes are in their container; whether a block-level box is among it.
#[cycle(container)]
fn put_nodes(alloc: Global, nodes: &[StyledNode], filling: &mut Filling) -> Result<bool, AllocError>
    ensures put { IfOk result (λ _. Puts (filling_of filling.old) (content (all_nodes_of nodes.now)) (filling_of filling.new)) }
    ensures cut { IfOk result (λ is_cut. is_cut ≡ has_block (content (all_nodes_of nodes.now))) }
{
    let mut is_cut = false;
    for node in nodes {
        is_cut |= put_node(alloc, node, filling)?;
    }
    Ok(is_cut)
}

// Puts what a node is in its container; whether a block-level box is among it.
#[cycle(container)]
fn put_node(alloc: Global, node: &StyledNode, filling: &mut Filling) -> Result<bool, AllocError>
    ensures put { IfOk result (λ _. Puts (filling_of filling.old) (content (nodes_of node.now)) (filling_of filling.new)) }
    ensures cut { IfOk result (λ is_cut. is_cut ≡ has_block (content (nodes_of node.now))) }
{
    match role_of(node) {
        Role::Nothing => Ok(false),
        Role::Words => {
            put_words(node, filling)?;
            Ok(false)
        }
        Role::LineBreak => {
            filling.put_break(node.node)?;
            Ok(false)
        }
        Role::InlineBox => put_inline_box(alloc, node, filling),
        Role::Atom => {
            let atom = container(alloc, node)?;
            filling.put_atom(node.node, atom)?;
            Ok(false)
        }
        Role::BlockLevel => {
            let block = container(alloc, node)?;
            filling.put_block(alloc, block)?;
            Ok(true)
        }
    }
}

// Puts an inline box with what is inside it; whether a block-level box is among it.
#[cycle(container)]
fn put_inline_box(
    alloc: Global,
    node: &StyledNode,
    filling: &mut Filling,
) -> Result<bool, AllocError>
    requires { role_in (nodes_of node.now) ≡ roles.InlineBox }
    ensures put { IfOk result (λ _. Puts (filling_of filling.old) (content (nodes_of node.now)) (filling_of filling.new)) }
    ensures cut { IfOk result (λ is_cut. is_cut ≡ has_block (content (nodes_of node.now))) }
{
    filling.start(node.node, &node.style)?;
    let is_cut = put_nodes(alloc, &node.children, filling)?;
    filling.stop(node.node, is_cut)?;
    Ok(is_cut)
}

// Puts the text of a text node.
fn put_words(node: &StyledNode, filling: &mut Filling) -> Result<(), AllocError>
    requires { role_in (nodes_of node.now) ≡ roles.Words }
    ensures { IfOk result (λ _. Puts (filling_of filling.old) (content (nodes_of node.now)) (filling_of filling.new)) }
{
    match &node.kind {
        StyledKind::Text { text } => filling.put_text(node.node, text, &node.style),
        StyledKind::Element | StyledKind::Break => Ok(()),
    }
}
