//! Edits are taken back.

ghost use Rattle.std.specs.Prelude.{◌≡◌};
ghost use Rattle.dom_store.specs.State.{state_of};
ghost use Rattle.dom_store.specs.Edits.{changed, with_children};
ghost use Rattle.dom_store.specs.Taking.{before_of, stood_of, taken_back, unplaced};

use crate::document::Document;
use crate::edit::{Before, Change, Stood};
use crate::moving::parent_left;

impl Document {
    /// Takes back what was done last: what stood before it stands again, and the numbers that it drew are given again.
    /// A removal can't be taken back. It takes no memory. The cost: the logarithm of their count for each inserted node.
    pub fn take_back(&mut self, change: Change)
        ensures { state_of self.new ≡ taken_back (before_of change.before) (state_of self.old) }
    {
        let Change {
            elements: _,
            before,
        } = change;
        match before {
            Before::Text { node, kind } => {
                self.put_kind(node, kind);
            }
            Before::Style { node, declarations } => {
                self.put_own(node, declarations);
            }
            Before::Class { node, words } => {
                self.put_classes(node, words);
            }
            Before::Insert {
                parent,
                index,
                count,
                next,
            } => {
                self.drop_children(parent, index as usize, count);
                self.give_back(next);
            }
            Before::Move {
                node,
                from,
                left,
                parent,
                index,
                stood,
            } => {
                self.put_parent(node, from);
                self.put_children_if(parent_left(from, parent), left);
                self.unplace(parent, index as usize, stood);
            }
            Before::NotKept => {}
        }
    }

    /// The children of a parent that a node entered at this index stand as before.
    fn unplace(&mut self, parent: u32, index: usize, stood: Stood)
        ensures { state_of self.new ≡ changed (state_of self.old) parent (with_children (unplaced (stood_of stood) index)) }
    {
        match stood {
            Stood::Nowhere => {
                self.drop_children(parent, index, 1);
            }
            Stood::At(place) => {
                self.turn_children(parent, index, place);
            }
            Stood::Among(children) => {
                self.put_children(parent, children);
            }
        }
    }
}
