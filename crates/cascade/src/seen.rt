//! The line of a node, with what is made ready of it.

ghost use Rattle.std.specs.Prelude.{◌≡◌, None, []};
ghost use Rattle.cascade.specs.ClassSets.{AreOf, AreOf-prop};

use crate::class_sets::ClassSets;
use dom_store::Node;

/// The nodes of a line, with the classes of those that have many.
#[derive(Clone, Copy)]
pub(crate) struct Seen<'l, 'n> {
    pub(crate) nodes: &'l [&'n Node],
    pub(crate) sets: &'l ClassSets,

    ghost are_of: { AreOf sets.now nodes.now } by { AreOf-prop sets.now nodes.now },
}

impl<'l, 'n> Seen<'l, 'n> {
    /// These nodes with no sets.
    #[tactic(auto, using(crate::proofs::Sets::none_are_of))]
    pub(crate) fn plain(nodes: &'l [&'n Node], none: &'l ClassSets) -> Seen<'l, 'n>
        requires { none.now.at ≡ None }
        ensures { result.nodes.now ≡ nodes.now }
    {
        Seen { nodes, sets: none }
    }
}
