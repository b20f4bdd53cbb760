//! How deep nodes stand: `html` is at 1, any other node one deeper than its parent.

ghost use Rattle.std.specs.Prelude.{◌≡◌, ◌<◌, ◌≤◌, length, IfOk, IfSome};
ghost use Rattle.std.specs.List.{All};
ghost use Rattle.html_read.specs.Values.{nodes_of};
ghost use Rattle.dom_store.specs.Building.{FindsTooDeep, FollowParents, JudgesDepths};
ghost use Rattle.dom_store.specs.Opening.{depth_in, greatest_count};
ghost use Rattle.dom_store.specs.State.{greatest_depth};

use crate::error::EditError;
use html_read::ReadNode;
use std::alloc::{AllocError, Global};

/// The depth past which no node stands.
pub(crate) const GREATEST_DEPTH: usize = 64;

/// Refuses the first node that stands too deep.
pub(crate) fn check_depths(alloc: Global, nodes: &[ReadNode]) -> Result<(), EditError>
    requires few { length nodes.now ≤ greatest_count }
    requires follow { FollowParents (nodes_of nodes.now) }
    ensures { JudgesDepths (nodes_of nodes.now) result }
{
    match first_too_deep(alloc, nodes, 0)? {
        Some(place) => Err(EditError::TooDeep(place as u32)),
        None => Ok(()),
    }
}

/// The place of the first node that stands too deep, where those that stand in no other are one deeper than this.
pub(crate) fn first_too_deep(
    alloc: Global,
    nodes: &[ReadNode],
    above: usize,
) -> Result<Option<usize>, AllocError>
    requires low { above ≤ greatest_depth }
    requires follow { FollowParents (nodes_of nodes.now) }
    ensures found { IfOk result (λ place. FindsTooDeep above (nodes_of nodes.now) place) }
    ensures within { IfOk result (λ place. IfSome place (λ p. p < length nodes.now)) }
{
    let mut depths = Vec::new(alloc);
    for place in 0..nodes.len() {
        let depth = depth_of(&depths, nodes[place].parent);
        if above + depth > GREATEST_DEPTH {
            return Ok(Some(place));
        }
        depths.push(depth)?;
    }
    Ok(None)
}

/// The depth of a node, by the depths of the nodes before it.
fn depth_of(depths: &[usize], parent: Option<usize>) -> usize
    requires shallow { All (λ depth. depth ≤ greatest_depth) depths.now }
    requires before { IfSome parent (λ place. place < length depths.now) }
    ensures { result ≡ depth_in depths.now parent }
{
    match parent {
        Some(place) => depths[place] + 1,
        None => 1,
    }
}
