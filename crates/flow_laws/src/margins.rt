//! The inline axis of a block-level box: what it takes with its margins, borders and paddings is its containing block's inline size
//! (CSS 2, 10.3.3).

ghost use Rattle.flow_laws.specs.Margins.{AutoFillsBetweenMargins, FillsContainingBlock};

/// The inline-start margin of a block-level box, its border box and its inline-end margin come to its containing block's inline size, and the
/// used margins are those that CSS 2, 10.3.3 gives: the inline-end one gives way where all are given.
pub fn a_box_fills_its_containing_block()
    ensures { FillsContainingBlock }
{}

/// A box of auto inline size, whose limits don't change it, fills what its margins leave, auto ones counted as 0.
pub fn an_auto_size_fills_between_the_margins()
    ensures { AutoFillsBetweenMargins }
{}
