//! The positions of a document: which of its nodes aren't hidden, and by what each is shifted (CSS Positioned Layout 3, 2 and
//! 3.1).

ghost use Rattle.std.specs.List.{list_any};
ghost use Rattle.std.specs.Prelude.{◌≡◌, ◌++◌, ℕ, IfOk, Option};
ghost use Rattle.style_types.specs.Tree.{all_nodes_of, nodes_of};
ghost use Rattle.rel_shift.specs.Positions as rule;

use box_gen::{Role, role_of};
use std::alloc::{AllocError, Global};
use style_types::{Insets, Position, Positions, StyledKind, StyledNode};

/// The positions of a styled tree: those of its nodes that aren't hidden, in document order. Takes memory for the list, and time
/// in proportion to the tree.
pub fn positions(alloc: Global, styled: &StyledNode) -> Result<Positions, AllocError>
    ensures { IfOk result (λ made. made.items ≡ rule.positions_of (nodes_of styled.now)) }
{
    let mut made = Positions::new(alloc);
    made.push(position(styled, None, None))?;
    let around = Around {
        parent: styled.node,
        holder: styled.node,
    };
    put_nodes(&styled.children, around, &mut made)?;
    Ok(made)
}

/// Whether an element of a styled tree is relatively positioned that isn't hidden: where there is none, no position has insets.
/// Takes no memory, and time in proportion to the tree.
pub fn has_relative(styled: &StyledNode) -> bool
    ensures { result ≡ list_any rule.has_insets (rule.positions_of (nodes_of styled.now)) }
{
    insets_of(styled).is_some() || have_relative(&styled.children)
}

// What nodes stand in: their parent, and the element whose box is their containing block.
#[derive(Clone, Copy)]
struct Around {
    parent: u32,
    holder: u32,
}

// Puts the positions of nodes, and of those below them.
#[cycle(put)]
fn put_nodes(nodes: &[StyledNode], around: Around, made: &mut Positions) -> Result<(), AllocError>
    ensures { IfOk result (λ _. made.new.items ≡ made.old.items ++ rule.positions_in around.parent around.holder (all_nodes_of nodes.now)) }
{
    for node in nodes {
        put_node(node, around, made)?;
    }
    Ok(())
}

// Puts the position of a node, and of those below it, where it isn't hidden.
#[cycle(put)]
fn put_node(node: &StyledNode, around: Around, made: &mut Positions) -> Result<(), AllocError>
    ensures { IfOk result (λ _. made.new.items ≡ made.old.items ++ rule.positions_in around.parent around.holder (nodes_of node.now)) }
{
    let role = role_of(node);
    if is_hidden(role) {
        return Ok(());
    }
    made.push(position(node, Some(around.parent), Some(around.holder)))?;
    let inside = Around {
        parent: node.node,
        holder: holder_in(role, node.node, around.holder),
    };
    put_nodes(&node.children, inside, made)?;
    Ok(())
}

// Whether one of these nodes, or of those below them, is relatively positioned and isn't hidden.
#[cycle(have)]
fn have_relative(nodes: &[StyledNode]) -> bool
    ensures { (parent holder : ℕ) → result ≡ list_any rule.has_insets (rule.positions_in parent holder (all_nodes_of nodes.now)) }
{
    for node in nodes {
        if has_relative_in(node) {
            return true;
        }
    }
    false
}

// Whether a node, or one of those below it, is relatively positioned and isn't hidden.
#[cycle(have)]
fn has_relative_in(node: &StyledNode) -> bool
    ensures { (parent holder : ℕ) → result ≡ list_any rule.has_insets (rule.positions_in parent holder (nodes_of node.now)) }
{
    if is_hidden(role_of(node)) {
        return false;
    }
    insets_of(node).is_some() || have_relative(&node.children)
}

fn position(node: &StyledNode, parent: Option<u32>, holder: Option<u32>) -> Position
    ensures { result ≡ rule.position_in parent holder (nodes_of node.now) }
{
    Position {
        node: node.node,
        parent,
        holder,
        insets: insets_of(node),
    }
}

// The insets of a relatively positioned element; a text has none, nor has a `br`.
fn insets_of(node: &StyledNode) -> Option<Insets>
    ensures { result ≡ rule.insets_in (nodes_of node.now) }
{
    match node.kind {
        StyledKind::Element if node.style.relative => Some(node.style.insets),
        StyledKind::Element | StyledKind::Break | StyledKind::Text { .. } => None,
    }
}

// Whether a node of this role isn't there, with all that stands in it.
fn is_hidden(role: Role) -> bool
    ensures { result ≡ rule.is_hidden role }
{
    match role {
        Role::Nothing => true,
        Role::Words | Role::LineBreak | Role::InlineBox | Role::Atom | Role::BlockLevel => false,
    }
}

// The element whose box is the containing block of what stands in a node of this role.
fn holder_in(role: Role, node: u32, holder: u32) -> u32
    ensures { result ≡ rule.holder_by role node holder }
{
    match role {
        Role::InlineBox => holder,
        Role::Nothing | Role::Words | Role::LineBreak | Role::Atom | Role::BlockLevel => node,
    }
}
