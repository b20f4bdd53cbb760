//! What stands above a node is styled, up to `html` (CSS 2, 6.1; CSS Writing Modes 4, 8).

ghost use Rattle.std.specs.Prelude.{◌≡◌, ◌<◌, ℕ, IfOk};
ghost use Rattle.dom_store.specs.State.{line, state_of};
ghost use Rattle.cascade.specs.Index.{index_rules};
ghost use Rattle.tree_laws.specs.Reached.{IsAtLevel};
ghost use Rattle.style_types.specs.Style.{IsBounded};
ghost use Rattle.box_limits.specs.Lines.{place_on};
ghost use Rattle.box_limits.specs.Judging.{IsTree};

use crate::judging::Judging;
use crate::place::Place;
use std::alloc::{AllocError, Global};

/// The number of `body`.
pub(crate) const BODY: u32 = 1;

impl<'a> Judging<'a> {
    /// Where the nodes stand that are in the node of this number, which stands at most so deep.
    pub(crate) fn place(&self, alloc: Global, number: u32, most: usize) -> Result<Place, AllocError>
        requires tree { IsTree (state_of self.now.styling.document.now) }
        ensures place { IfOk result (λ place. (level : ℕ) → IsAtLevel (state_of self.now.styling.document.now) level number → level < most
            → place ≡ place_on (index_rules self.now.styling.rules.now) (line (state_of self.now.styling.document.now) number)) }
        ensures bounded { IfOk result (λ place. IsBounded place.style) }
    {
        if most == 0 {
            return Ok(Place::outside());
        }
        if number == BODY {
            let place = self.body_place(alloc)?;
            return Ok(place);
        }
        let Some(node) = self.styling.document.node(number) else {
            return Ok(Place::outside());
        };
        let Some(parent) = node.parent else {
            return Ok(Place::outside());
        };
        let above = self.place(alloc, parent, most - 1)?;
        let style = self.styling.own_style(alloc, number, node, &above.style)?;
        Ok(above.in_node(&node.kind, &style))
    }

    // Where the nodes stand that are in `body`.
    fn body_place(&self, alloc: Global) -> Result<Place, AllocError>
        requires tree { IsTree (state_of self.now.styling.document.now) }
        ensures place { IfOk result (λ place. place ≡ place_on (index_rules self.now.styling.rules.now) (line (state_of self.now.styling.document.now) 1)) }
        ensures bounded { IfOk result (λ place. IsBounded place.style) }
    {
        let html = self.styling.html_style(alloc)?;
        let style = self.styling.body_style(alloc, &html)?;
        let body = self.styling.document.node(BODY).unwrap();
        Ok(Place::of_body(&style).in_node(&body.kind, &style))
    }
}
