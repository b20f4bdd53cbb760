//! A whole tree of boxes that is put into an arena.

ghost use Rattle.std.specs.Prelude.{◌≡◌, ◌≤◌, ◌^◌};
ghost use Rattle.box_gen.specs.Tree as rule;
ghost use Rattle.box_gen.specs.Tree.{boxes_of};

use crate::arena::BoxArena;
use crate::key::BoxKey;
use box_gen::BoxTree;

impl<T> BoxArena<T> {
    ghost use Rattle.slab.specs.Slab.{HasRoomFor};
    ghost use Rattle.box_gen.specs.Tree.{boxes_of, count};
    ghost use Rattle.box_arena.specs.Planting.{Plants};

    /// Puts a box and all boxes inside it under free keys, for which there must be room: not attached, with nothing kept. All
    /// other boxes stay as they were. Takes no memory; the recursion is as deep as the tree.
    pub fn plant(&mut self, tree: BoxTree) -> BoxKey
        requires { HasRoomFor self.old (count (boxes_of tree)) }
        ensures { Plants self.old self.new result (boxes_of tree) }
    {
        let BoxTree { node, children } = tree;
        let key = self.insert_reserved(node);
        for child in children {
            let inside = self.plant(child);
            self.attach(key, None, inside);
        }
        key
    }
}

/// How many boxes a tree has, at most 2^32.
pub fn count(tree: &BoxTree) -> usize
    requires { rule.count (boxes_of tree.now) ≤ 2 ^ 32 }
    ensures { result ≡ rule.count (boxes_of tree.now) }
{
    let mut boxes = 1;
    for child in &tree.children {
        boxes += count(child);
    }
    boxes
}
