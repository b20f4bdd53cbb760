//! A tree of styles is held against the limit of boxes.

ghost use Rattle.std.specs.Prelude.{◌≡◌};
ghost use Rattle.style_types.specs.Tree.{all_nodes_of, nodes_of};
ghost use Rattle.box_gen.specs.Found.{found_from};
ghost use Rattle.box_gen.specs.Limit.{ChecksBoxes};

use crate::found::Found;
use crate::limit::BoxLimit;
use crate::role::role_of;
use crate::site::Site;
use style_types::StyledNode;

/// Whether the boxes of a styled tree are within the limit: more than six boxes on a line of ancestors that are orthogonal to
/// their containing blocks are refused, with the least number of the node of such a box. Takes no memory, and time in
/// proportion to the tree.
pub fn check_boxes(root: &StyledNode) -> Result<(), BoxLimit>
    ensures { ChecksBoxes (nodes_of root.now) result }
{
    found_in(&root.children, Site::in_root(root.style.mode)).judged()
}

// What is found among these nodes and those below them, which stand there.
#[cycle(found)]
fn found_in(nodes: &[StyledNode], site: Site) -> Found
    ensures { result ≡ found_from site (all_nodes_of nodes.now) }
{
    let mut found = Found::nothing();
    for node in nodes {
        found = found.and(found_at(node, site));
    }
    found
}

// What is found of a node and of those below it.
#[cycle(found)]
fn found_at(node: &StyledNode, site: Site) -> Found
    ensures { result ≡ found_from site (nodes_of node.now) }
{
    let role = role_of(node);
    let mode = node.style.mode;
    let own = Found::at(node.node, site.is_past(role, mode));
    own.and(found_in(&node.children, site.in_node(role, mode)))
}
