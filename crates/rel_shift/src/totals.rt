//! How far each node is shifted: by its own insets, and by those of the elements that it stands in (CSS 2, 9.4.3).

ghost use Rattle.std.specs.BTreeMap.{get};
ghost use Rattle.std.specs.List.{All};
ghost use Rattle.std.specs.Ordering.{nat_cmp};
ghost use Rattle.std.specs.Prelude.{◌≡◌, ℕ, ◌≤◌, ◌^◌, length, IfOk};
ghost use Rattle.place_map.specs.Placed.{placed_of};
ghost use Rattle.rel_shift.specs.Bounds.{AreSized, HasBounds, IsWithin};
ghost use Rattle.rel_shift.specs.Boxes.{box_of};
ghost use Rattle.rel_shift.specs.Own as sums;
ghost use Rattle.rel_shift.specs.Totals as rule;

use crate::boxes::{boxes_by_node, view_block};
use crate::containing::Containing;
use crate::insets::Shift;
use place_map::Placed;
use std::alloc::{AllocError, Global};
use std::collections::BTreeMap;
use style_types::Position;

/// The shifts of nodes, by their numbers.
#[derive(Drop)]
pub(crate) struct Totals {
    by_node: BTreeMap<u32, Shift>,
}

impl Totals {
    /// The shifts of the nodes of a page.
    pub(crate) fn of_page(
        alloc: Global,
        placed: &Placed,
        positions: &[Position],
    ) -> Result<Totals, AllocError>
        requires sized { AreSized (placed_of placed.now) }
        requires bounded { All HasBounds positions.now }
        requires few { length positions.now ≤ 65536 }
        ensures total { IfOk result (λ totals. (node : ℕ) → rule.total_in totals node ≡ rule.total (placed_of placed.now) positions.now node) }
        ensures within { IfOk result (λ totals. (node : ℕ) → IsWithin (2 ^ 48) (rule.total_in totals node)) }
    {
        let boxes = boxes_by_node(alloc, placed)?;
        let mut totals = Totals {
            by_node: BTreeMap::new(alloc),
        };
        for position in positions {
            let own = own(placed, &boxes, position);
            totals.add(position, own)?;
        }
        Ok(totals)
    }

    /// How far a node is shifted.
    pub(crate) fn total(&self, node: u32) -> Shift
        ensures { result ≡ rule.total_in self.now node }
    {
        self.by_node.get(&node).copied().unwrap_or(no_shift())
    }

    // A node is shifted as its parent is, and by its own shift.
    fn add(&mut self, position: &Position, own: Shift) -> Result<(), AllocError>
        requires around { (node : ℕ) → IsWithin (2 ^ 48) (rule.total_in self.old node) }
        requires own { IsWithin (2 ^ 32) own }
        ensures { IfOk result (λ _. (node : ℕ) → rule.total_in self.new node ≡ rule.total_with self.old position.now own node) }
    {
        let around = match position.parent {
            Some(parent) => self.total(parent),
            None => no_shift(),
        };
        self.by_node.insert(position.node, around.plus(own))?;
        Ok(())
    }
}

// What a node adds itself.
fn own(placed: &Placed, boxes: &BTreeMap<u32, Containing>, position: &Position) -> Shift
    requires boxes { (node : ℕ) → get nat_cmp boxes.now node ≡ box_of (placed_of placed.now) node }
    requires sized { AreSized (placed_of placed.now) }
    requires bounded { HasBounds position.now }
    ensures value { result ≡ rule.own (placed_of placed.now) position.now }
    ensures within { IsWithin (2 ^ 32) result }
{
    match (position.insets, containing(placed, boxes, position.holder)) {
        (Some(insets), Some(containing)) => containing.shift(&insets),
        (Some(_), None) | (None, _) => no_shift(),
    }
}

// The containing block of what an element holds; the view where there is none.
fn containing(
    placed: &Placed,
    boxes: &BTreeMap<u32, Containing>,
    holder: Option<u32>,
) -> Option<Containing>
    requires boxes { (node : ℕ) → get nat_cmp boxes.now node ≡ box_of (placed_of placed.now) node }
    ensures { result ≡ rule.containing (placed_of placed.now) holder }
{
    match holder {
        Some(holder) => boxes.get(&holder).copied(),
        None => Some(view_block(placed)),
    }
}

fn no_shift() -> Shift
    ensures value { result ≡ sums.no_shift }
    ensures within { IsWithin 0 result }
{
    Shift { dx: 0, dy: 0 }
}
