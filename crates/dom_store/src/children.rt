//! The children of each node, where each node names its parent.

ghost use Rattle.std.specs.Prelude.{◌≡◌, ◌<◌, ℕ, ◌+◌, ◌^◌, ◌++◌, [], length, IfOk, IfSome, OnOk};
ghost use Rattle.html_read.specs.Values.{nodes_of};
ghost use Rattle.dom_store.specs.Building.{FollowParents, numbers_at, tops_from};
ghost use Rattle.dom_store.specs.Opening.{children_from, put_if, stands_in};

use crate::node::NodeNumbers;
use html_read::ReadNode;
use std::alloc::{AllocError, Global};

/// The children of each node, in order, where the first node has this number.
pub(crate) fn children_of(
    alloc: Global,
    nodes: &[ReadNode],
    first: u32,
) -> Result<Vec<NodeNumbers>, AllocError>
    requires few { first + length nodes.now < 2 ^ 32 }
    requires follow { FollowParents (nodes_of nodes.now) }
    ensures count { IfOk result (λ lists. length lists.items ≡ length nodes.now) }
    ensures lists { IfOk result (λ lists. (place : ℕ) → numbers_at lists.items place ≡ children_from first place (nodes_of nodes.now)) }
{
    let mut lists = empty_lists(alloc, nodes.len())?;
    for place in 0..nodes.len() {
        add_child(&mut lists, nodes[place].parent, first + place as u32)?;
    }
    Ok(lists)
}

/// The numbers of the nodes that stand in no other, where the first node has this number.
pub(crate) fn tops_of(
    alloc: Global,
    nodes: &[ReadNode],
    first: u32,
) -> Result<NodeNumbers, AllocError>
    requires { first + length nodes.now < 2 ^ 32 }
    ensures { IfOk result (λ tops. tops.items ≡ tops_from first (nodes_of nodes.now)) }
{
    let mut tops = Vec::new(alloc);
    for place in 0..nodes.len() {
        if nodes[place].parent.is_none() {
            tops.push(first + place as u32)?;
        }
    }
    Ok(tops)
}

fn empty_lists(alloc: Global, count: usize) -> Result<Vec<NodeNumbers>, AllocError>
    ensures count { IfOk result (λ lists. length lists.items ≡ count) }
    ensures empty { IfOk result (λ lists. (place : ℕ) → numbers_at lists.items place ≡ []) }
{
    let mut lists = Vec::new(alloc);
    for _ in 0..count {
        lists.push(Vec::new(alloc))?;
    }
    Ok(lists)
}

/// Puts a node last among its parent's children.
fn add_child(
    lists: &mut Vec<NodeNumbers>,
    parent: Option<usize>,
    child: u32,
) -> Result<(), AllocError>
    requires { IfSome parent (λ place. place < length lists.old.items) }
    ensures count { OnOk result (length lists.new.items ≡ length lists.old.items) }
    ensures put { OnOk result ((place : ℕ) → numbers_at lists.new.items place ≡ numbers_at lists.old.items place ++ put_if (stands_in place parent) child []) }
{
    if let Some(place) = parent {
        lists[place].push(child)?;
    }
    Ok(())
}
