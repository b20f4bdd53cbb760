//! Where nodes stand: above others, below others, and how deep (DOM, 4.2).

ghost use Rattle.std.specs.Prelude.{◌≡◌, ◌≤◌, ◌++◌, flat_map, length, nat_eq, IfOk, OnOk};
ghost use Rattle.std.specs.List.{list_any};
ghost use Rattle.dom_store.specs.Standing.{ancestors_to, below_levels, children_at, depth_at, inclusive_ancestors, inclusive_descendants, parent_at, unless_skipped};
ghost use Rattle.dom_store.specs.State.{state_of};

use crate::depths::GREATEST_DEPTH;
use crate::document::Document;
use crate::node::NodeNumbers;
use std::alloc::{AllocError, Global};

impl Document {
    /// The node's parent, where the node lives and has one.
    pub(crate) fn parent(&self, n: u32) -> Option<u32>
        ensures { result ≡ parent_at (state_of self.now) n }
    {
        self.node(n)?.parent
    }

    /// The node's children, none where no such node lives.
    pub(crate) fn children(&self, n: u32) -> &[u32]
        ensures { result.now ≡ children_at (state_of self.now) n }
    {
        match self.node(n) {
            Some(node) => &node.children,
            None => &[],
        }
    }

    /// How deep a node stands, where `html` is at 1.
    pub(crate) fn depth(&self, n: u32) -> usize
        ensures value { result ≡ depth_at (state_of self.now) n }
        ensures low { result ≤ 64 }
    {
        self.depth_to(GREATEST_DEPTH, Some(n))
    }

    fn depth_to(&self, most: usize, n: Option<u32>) -> usize
        ensures value { result ≡ length (ancestors_to most (state_of self.now) n) }
        ensures low { result ≤ most }
    {
        if most == 0 {
            return 0;
        }
        match n {
            Some(number) => 1 + self.depth_to(most - 1, self.parent(number)),
            None => 0,
        }
    }

    /// Whether a node stands in this one, or is this one.
    pub(crate) fn is_within(&self, n: u32, ancestor: u32) -> bool
        ensures { result ≡ list_any (nat_eq ancestor) (inclusive_ancestors (state_of self.now) n) }
    {
        self.is_within_to(GREATEST_DEPTH, Some(n), ancestor)
    }

    fn is_within_to(&self, most: usize, n: Option<u32>, ancestor: u32) -> bool
        ensures { result ≡ list_any (nat_eq ancestor) (ancestors_to most (state_of self.now) n) }
    {
        if most == 0 {
            return false;
        }
        match n {
            Some(number) => {
                ancestor == number || self.is_within_to(most - 1, self.parent(number), ancestor)
            }
            None => false,
        }
    }

    /// The node and all below it, in document order.
    pub(crate) fn descendants(&self, alloc: Global, n: u32) -> Result<NodeNumbers, AllocError>
        ensures { IfOk result (λ found. found.items ≡ inclusive_descendants (state_of self.now) n) }
    {
        let mut found = Vec::new(alloc);
        self.collect(0, GREATEST_DEPTH, n, &mut found)?;
        Ok(found)
    }

    #[cycle(collect)]
    /// Puts the node and those below it last, down to so many levels, of which the first are skipped.
    pub(crate) fn collect(
        &self,
        skipped: usize,
        levels: usize,
        n: u32,
        found: &mut NodeNumbers,
    ) -> Result<(), AllocError>
        ensures { OnOk result (found.new.items ≡ found.old.items ++ below_levels skipped levels (state_of self.now) n) }
    {
        if levels == 0 {
            return Ok(());
        }
        put_unless_skipped(skipped, n, found)?;
        self.collect_all(
            skipped.saturating_sub(1),
            levels - 1,
            self.children(n),
            found,
        )?;
        Ok(())
    }

    #[cycle(collect)]
    /// Puts each of these nodes and those below it last, in the same way.
    pub(crate) fn collect_all(
        &self,
        skipped: usize,
        levels: usize,
        numbers: &[u32],
        found: &mut NodeNumbers,
    ) -> Result<(), AllocError>
        ensures { OnOk result (found.new.items ≡ found.old.items ++ flat_map (below_levels skipped levels (state_of self.now)) numbers.now) }
    {
        for n in numbers {
            self.collect(skipped, levels, *n, found)?;
        }
        Ok(())
    }
}

fn put_unless_skipped(skipped: usize, n: u32, found: &mut NodeNumbers) -> Result<(), AllocError>
    ensures { OnOk result (found.new.items ≡ found.old.items ++ unless_skipped skipped n) }
{
    if skipped == 0 {
        found.push(n)?;
    }
    Ok(())
}
