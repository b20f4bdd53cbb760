//! What a stack of children tells.

ghost use Rattle.std.specs.Prelude.{◌≡◌};

use margin_collapse::Margins;
use std::marker::Model;

/// Stacked children: where they stand, and what they come to. All lengths are in units of 1/64 px.
#[derive(Drop)]
pub struct Stack {
    pub(crate) places: Vec<i64>,
    pub(crate) extent: i64,
    pub(crate) start: Margins,
    pub(crate) end: Margins,
    pub(crate) through: bool,
}

impl Model for Stack {
    ghost use Rattle.block_flow.specs.Stacked.{Stacked};

    ghost Value = { Stacked };

    ghost view = { λ s. record { places = s.places.items; extent = s.extent; start = s.start; end_ = s.end; through = s.through } };
}

impl Stack {
    /// Where the border box of each child stands, from the block-start edge of the container's content area.
    pub fn places(&self) -> &[i64]
        ensures { result.now ≡ self.now.places }
    {
        &self.places
    }

    /// The block extent of the children: what an auto block size of their container comes to.
    pub fn extent(&self) -> i64
        ensures { result ≡ self.now.extent }
    {
        self.extent
    }

    /// The children's margins that adjoin the container's start.
    pub fn start(&self) -> Margins
        ensures { result ≡ self.now.start }
    {
        self.start
    }

    /// The margins that are handed outwards at the container's end.
    pub fn end(&self) -> Margins
        ensures { result ≡ self.now.end_ }
    {
        self.end
    }

    /// Whether every child is collapsed through.
    pub fn through(&self) -> bool
        ensures { result ≡ self.now.through }
    {
        self.through
    }
}
