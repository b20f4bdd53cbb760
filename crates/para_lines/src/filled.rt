//! Where the lines of a paragraph end (CSS 2, 9.4.2).

ghost use Rattle.std.specs.Prelude.{◌≡◌, ◌+◌, ◌≤◌, Some, IfOk, OnOk, length};
ghost use Rattle.para_lines.specs.Conditions.{IsInput, IsInput-prop};

use crate::alone::Alone;
use crate::boxes::Boxes;
use crate::filling::{FillInput, FillItems};
use crate::paragraph::{Atom, Container};
use crate::prepared::PreparedLists;
use crate::standing::Standings;
use line_fill::{Lines, fill, fill_from};
use std::alloc::{AllocError, Global};
use std::sync::ledger::Ledger;
use wm_units::Steps;

/// What the lines of a paragraph are made from: its inline boxes, its items as they are prepared, its container, and its
/// inline-blocks in order.
#[derive(Clone, Copy)]
pub(crate) struct ParagraphInput<'a> {
    pub(crate) boxes: &'a Boxes<'a>,
    pub(crate) lists: PreparedLists<'a>,
    pub(crate) container: &'a Container,
    pub(crate) atoms: &'a [Atom],

    ghost is_input: { IsInput boxes.now lists.items.now container.now atoms.now } by { IsInput-prop boxes.now lists.items.now container.now atoms.now },
}

impl ParagraphInput<'_> {
    ghost use Rattle.para_lines.specs.Alone.{GoForward};
    ghost use Rattle.para_lines.specs.Filled.{IsFilled, IsReadAlone, fills_in};

    /// Where the lines of these items end, which are those that it is made from on their way to lines. Counts one step.
    pub(crate) fn filled<L: Ledger>(
        &self,
        alloc: Global,
        standings: &Standings,
        arranged: &mut Steps<L>,
    ) -> Result<Lines, AllocError>
        requires read { IsReadAlone self.now standings.now }
        requires forward { length self.now.atoms.now ≡ 0 → GoForward standings.now }
        ensures ticks { OnOk result (arranged.new ≡ arranged.old + 1) }
        ensures most { (arranged.old ≤ arranged.new) × (arranged.new ≤ arranged.old + 1) }
        ensures filled { IfOk result (λ made. IsFilled self.now made) }
    {
        if self.boxes.count() == 1 {
            let made = self.filled_alone(alloc, standings, arranged)?;
            Ok(made)
        } else {
            let made = self.filled_in_boxes(alloc, arranged)?;
            Ok(made)
        }
    }

    // The lines of a paragraph of one item, as most are: they are filled straight from the items that stand on them.
    fn filled_alone<L: Ledger>(
        &self,
        alloc: Global,
        standings: &Standings,
        arranged: &mut Steps<L>,
    ) -> Result<Lines, AllocError>
        requires one { length self.now.boxes.now ≡ 1 }
        requires read { IsReadAlone self.now standings.now }
        requires forward { length self.now.atoms.now ≡ 0 → GoForward standings.now }
        ensures ticks { OnOk result (arranged.new ≡ arranged.old + 1) }
        ensures most { (arranged.old ≤ arranged.new) × (arranged.new ≤ arranged.old + 1) }
        ensures filled { IfOk result (λ made. IsFilled self.now made) }
    {
        let source = Alone {
            standings,
            forward: self.atoms.is_empty(),
        };
        let lines = fill_from(alloc, &source, self.container.size, arranged)?;
        Ok(lines)
    }

    // The lines of a paragraph of any number of items: they are filled from a list of these with the edges of the inline
    // boxes round them.
    fn filled_in_boxes<L: Ledger>(
        &self,
        alloc: Global,
        arranged: &mut Steps<L>,
    ) -> Result<Lines, AllocError>
        ensures ticks { OnOk result (arranged.new ≡ arranged.old + 1) }
        ensures most { (arranged.old ≤ arranged.new) × (arranged.new ≤ arranged.old + 1) }
        ensures filled { IfOk result (λ made. IsFilled self.now made) }
    {
        let fills = self.fill_items(alloc)?;
        let lines = fill(alloc, &fills, self.container.size, arranged)?;
        Ok(lines)
    }

    // The items as lines are filled with them.
    fn fill_items(&self, alloc: Global) -> Result<FillItems, AllocError>
        ensures { IfOk result (λ made. made.items ≡ fills_in self.now) }
    {
        let mut extents = Vec::with_capacity(alloc, self.atoms.len())?;
        for atom in self.atoms {
            extents.push_reserved(atom.extent);
        }
        let input = FillInput {
            boxes: self.boxes,
            lists: self.lists,
            inline: Some(self.container.size),
        };
        let made = input.items(alloc, &extents)?;
        Ok(made)
    }
}
