//! The document (DOM, 4.2, narrowed).

ghost use Rattle.std.specs.Ordering.{nat_cmp};
ghost use Rattle.std.specs.BTreeMap as keyed;
ghost use Rattle.slab.specs.Slab as slots;
ghost use Rattle.std.specs.Prelude.{◌≡◌, ◌<◌, ◌^◌};
ghost use Rattle.dom_store.specs.Keys.{IsKeyed, count_below};

use crate::node::Node;
use slab::Slab;
use std::collections::BTreeMap;

/// The state of a document: its live nodes, each under its number, and the number that is given next. A number is given
/// once. `html` is 0, `body` is 1, the others of a document that was read follow in document order.
#[derive(Drop)]
pub struct Document {
    // Keys of the slab are used again, numbers aren't: the map says under which key a number's node lies.
    pub(crate) nodes: Slab<Node>,
    pub(crate) keys: BTreeMap<u32, usize>,
    pub(crate) next: u32,
    ghost sound: { IsKeyed (keyed.get nat_cmp keys) (slots.get nodes) next },
    ghost fits: { next < 2 ^ 32 },
    ghost counted: { keyed.btree_map_len keys ≡ count_below (keyed.get nat_cmp keys) next },
}

impl Document {
    ghost use Rattle.std.specs.Prelude.{◌≡◌, option_map, option_and_then};
    ghost use Rattle.dom_store.specs.State.{child_at, entry_of, state_of};

    /// The node of this number; `None` exactly where no such node lives. Takes no memory.
    pub fn node(&self, n: u32) -> Option<&Node>
        ensures { option_map (λ node. entry_of node.now) result ≡ (state_of self.now).node_at n }
    {
        let key = self.keys.get(&n)?;
        self.nodes.get(*key)
    }

    /// The child at this index, the first at 0; `None` exactly where no such node lives, or the index isn't below the
    /// count of its children. Takes no memory.
    pub fn child(&self, n: u32, index: u32) -> Option<u32>
        ensures { result ≡ child_at (state_of self.now) n index }
    {
        let node = self.node(n)?;
        node.children.get(index as usize).copied()
    }
}
