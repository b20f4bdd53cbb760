//! The line of a node, which selectors are matched against (DOM, 4.2, narrowed).

ghost use Rattle.std.specs.Prelude.{◌≡◌, ◌≤◌, ◌<◌, length, slice_set, [], take, None, IfSome, IfNone, option_map, option_and_then};
ghost use Rattle.dom_store.specs.State.{entry_of, line, state_of};
ghost use Rattle.cascade.specs.Line.{whats_of};

use crate::class_sets::ClassSets;
use crate::seen::Seen;
use dom_store::{Document, Node};

/// How many nodes a line has at most: no node stands deeper.
pub(crate) const MOST: usize = 64;

/// A node, its parent, and so on up to `html`.
#[derive(Drop)]
pub(crate) struct Line<'a> {
    // Behind the first `length` places stands anything.
    nodes: [&'a Node; MOST],
    length: usize,

    ghost fits: { length ≤ 64 },
}

impl<'a> Line<'a> {
    /// The nodes, from the node up.
    pub(crate) fn seen<'l>(&'l self, none: &'l ClassSets) -> Seen<'l, 'a>
        requires { none.now.at ≡ None }
        ensures { result.nodes.now ≡ take self.now.length self.now.nodes }
    {
        Seen::plain(&self.nodes[..self.length], none)
    }
}

// The node that has this one as its parent.
fn parent_in<'a>(document: &'a Document, node: &Node) -> Option<&'a Node>
    ensures { option_map (λ parent. entry_of parent.now) result ≡ option_and_then (state_of document.now).node_at node.now.parent }
{
    document.node(node.parent?)
}

/// The line of a node, 64 nodes at most; `None` where no such node lives, whose line is empty. Takes no memory.
pub(crate) fn line_of(document: &Document, node: u32) -> Option<Line<'_>>
    ensures some { IfSome result (λ found. whats_of (take found.length found.nodes) ≡ line (state_of document.now) node) }
    ensures none { IfNone result (line (state_of document.now) node ≡ []) }
{
    let mut last = document.node(node)?;
    let mut nodes = [last; MOST];
    let mut length = 1;
    while length < MOST {
        let Some(parent) = parent_in(document, last) else {
            break;
        };
        put(&mut nodes, length, parent);
        length += 1;
        last = parent;
    }
    Some(Line { nodes, length })
}

/// Puts a node at a place.
pub(crate) fn put<'a>(nodes: &mut [&'a Node], place: usize, node: &'a Node)
    requires { place < length nodes.old }
    ensures { nodes.new ≡ slice_set nodes.old place node.entry }
{
    nodes[place] = node;
}
