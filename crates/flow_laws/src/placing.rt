//! What a box does with what the boxes in it come to: it puts them somewhere, and changes nothing in them (CSS 2, 9.4.1).

ghost use Rattle.flow_laws.specs.Placing.{BoxesAreMovedAlone, ComeAtZero, InlineBlocksAreMovedAlone};

/// What a box comes to stands at 0 on both axes of its containing block, until that puts it somewhere.
pub fn what_a_box_comes_to_stands_at_zero()
    ensures { ComeAtZero }
{}

/// The fragments in a box that holds block-level boxes are what these come to, in their order, all of them under one constraint, and each
/// changed in nothing but where its border box stands.
pub fn boxes_are_moved_alone()
    ensures { BoxesAreMovedAlone }
{}

/// The inline-blocks on the lines of a box that holds a paragraph are what its boxes come to, all of them under one constraint, and each
/// changed in nothing but where its border box stands.
pub fn inline_blocks_are_moved_alone()
    ensures { InlineBlocksAreMovedAlone }
{}
