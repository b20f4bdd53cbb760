//! Nodes are judged, with all below them (CSS Writing Modes 4, 7.3).

ghost use Rattle.std.specs.Prelude.{◌≡◌, IfOk};
ghost use Rattle.style_types.specs.Tree as trees;
ghost use Rattle.dom_store.specs.State.{state_of, tree_to, what_of};
ghost use Rattle.cascade.specs.Index.{index_rules};
ghost use Rattle.style_tree.specs.Styling as styling;
ghost use Rattle.style_tree.specs.Styling.{styled_in};
ghost use Rattle.style_types.specs.Style.{IsBounded};
ghost use Rattle.box_gen.specs.Found.{found_from};
ghost use Rattle.box_limits.specs.Judging.{AreInside, FindsBelow, IsTree};

use crate::place::Place;
use box_gen::Found;
use dom_store::Node;
use std::alloc::{AllocError, Global};
use style_tree::Styling;

// No node is deeper.
const GREATEST_DEPTH: usize = 64;

/// A document, of which the boxes are judged by the styles of its nodes.
#[derive(Clone, Copy)]
pub(crate) struct Judging<'a> {
    pub styling: Styling<'a>,
}

impl<'a> Judging<'a> {
    // What is found of a node that stands there, and of all inside it, down to a depth.
    #[cycle(node)]
    fn node(
        &self,
        alloc: Global,
        number: u32,
        node: &Node,
        place: &Place,
        depth: usize,
    ) -> Result<Found, AllocError>
        requires { IsBounded place.now.style }
        ensures { IfOk result (λ found. found ≡ found_from place.now.site
            (styling.styled_one (index_rules self.now.styling.rules.now) (state_of self.now.styling.document.now) place.now.style number (what_of node.now.kind) (tree_to depth (state_of self.now.styling.document.now) node.now.children.items) trees.none)) }
    {
        let style = self.styling.own_style(alloc, number, node, &place.style)?;
        let own = place.found_at(number, &node.kind, &style);
        let inside = place.in_node(&node.kind, &style);
        let below = self.nodes(alloc, &node.children, &inside, depth)?;
        Ok(own.and(below))
    }

    // What is found of the nodes of these numbers, which stand there, and of all inside them, down to a depth.
    #[cycle(node)]
    fn nodes(
        &self,
        alloc: Global,
        numbers: &[u32],
        place: &Place,
        depth: usize,
    ) -> Result<Found, AllocError>
        requires { IsBounded place.now.style }
        ensures { IfOk result (λ found. found ≡ found_from place.now.site (styled_in (index_rules self.now.styling.rules.now) (state_of self.now.styling.document.now) place.now.style (tree_to depth (state_of self.now.styling.document.now) numbers.now))) }
    {
        let mut found = Found::nothing();
        if depth == 0 {
            return Ok(found);
        }
        for number in numbers {
            if let Some(node) = self.styling.document.node(*number) {
                found = found.and(self.node(alloc, *number, node, place, depth - 1)?);
            }
        }
        Ok(found)
    }

    /// Of these children of a node and all below them the least that breaks the limit. No other node is looked at but those that the
    /// children stand in.
    pub(crate) fn children(
        &self,
        alloc: Global,
        parent: u32,
        numbers: &[u32],
    ) -> Result<Found, AllocError>
        requires tree { IsTree (state_of self.now.styling.document.now) }
        requires inside { AreInside (state_of self.now.styling.document.now) parent numbers.now }
        ensures { IfOk result (λ found. FindsBelow (index_rules self.now.styling.rules.now) (state_of self.now.styling.document.now) numbers.now found) }
    {
        let place = self.place(alloc, parent, GREATEST_DEPTH)?;
        let found = self.nodes(alloc, numbers, &place, GREATEST_DEPTH)?;
        Ok(found)
    }
}
