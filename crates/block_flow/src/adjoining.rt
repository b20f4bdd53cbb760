//! Which margins of a box adjoin: its own with its children's, and with one another (CSS 2, 8.3.1).

ghost use Rattle.std.specs.Prelude.{◌≡◌};
ghost use Rattle.block_flow.specs.Adjoining as adjoining;

use crate::ParentEdges;

/// What stands between the margins at one end of a box and those of its children, in units of 1/64 px.
#[derive(Clone, Copy, Debug, PartialEq, Eq)]
pub struct Edge {
    pub border: i64,
    pub padding: i64,
}

/// What decides which margins of a box adjoin, all on its block axis and in units of 1/64 px.
#[derive(Clone, Copy, Debug, PartialEq, Eq)]
pub struct BlockBox {
    pub is_flow_root: bool,
    pub start: Edge,
    pub end: Edge,
    /// The block size, where it isn't auto.
    pub size: Option<i64>,
    /// The minimum block size.
    pub min: i64,
    /// Whether there are lines in it.
    pub has_lines: bool,
}

impl BlockBox {
    /// Which of its edges adjoin those of its children: its start the first one's start, its end the last one's end.
    /// What is a flow root has no margins that adjoin its children's, nor does an edge with a border or a padding. The
    /// end adjoins only where the size is auto and the minimum 0. Takes no memory.
    pub fn edges(self) -> ParentEdges
        ensures { result ≡ adjoining.edges self }
    {
        ParentEdges {
            start_joins: !self.is_flow_root && self.start.is_open(),
            end_joins: !self.is_flow_root && self.end.is_open() && self.is_as_contents(),
        }
    }

    /// Whether its own start and end adjoin, so that it is collapsed through, where its children all are or not. Takes
    /// no memory.
    pub fn is_through(self, children_are: bool) -> bool
        ensures { result ≡ adjoining.is_through self children_are }
    {
        !self.is_flow_root
            && self.start.is_open()
            && self.end.is_open()
            && !self.has_lines
            && self.is_flat()
            && children_are
    }

    // Whether its block size is that of its contents.
    fn is_as_contents(self) -> bool
        ensures { result ≡ adjoining.is_as_contents self }
    {
        self.size == None && self.min == 0
    }

    // Whether nothing but its contents can give it a block size.
    fn is_flat(self) -> bool
        ensures { result ≡ adjoining.is_flat self }
    {
        self.size.unwrap_or(0) == 0 && self.min == 0
    }
}

impl Edge {
    // Whether nothing stands between the margins.
    fn is_open(self) -> bool
        ensures { result ≡ adjoining.is_open self }
    {
        self.border == 0 && self.padding == 0
    }
}
