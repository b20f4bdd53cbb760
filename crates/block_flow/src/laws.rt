//! Laws of stacks: what their answers are by the margins that adjoin, taken from where the children stand
//! among each other. The functions do nothing: their contracts are the laws.

ghost use Rattle.block_flow.specs.Laws.{StandByAdjoining, AdjoinOutside, EndByAdjoining, AreTakenApart, AdjoinWhereCollapsed};

/// Each child stands where the margins say that adjoin its start.
pub fn children_stand_by_adjoining_margins()
    ensures { StandByAdjoining }
{}

/// What is joined to the container's start and handed outwards at its end are the margins that adjoin there.
pub fn outer_margins_adjoin()
    ensures { AdjoinOutside }
{}

/// The extent ends by the margins that adjoin the last child's end.
pub fn extents_end_by_adjoining_margins()
    ensures { EndByAdjoining }
{}

/// Children are all collapsed through, or some child is the first and some the last that isn't: the other
/// laws have a case for all of them.
pub fn children_are_taken_apart()
    ensures { AreTakenApart }
{}

/// A box of auto size that is collapsed through adjoins its children at both ends.
pub fn collapsed_boxes_adjoin_their_children()
    ensures { AdjoinWhereCollapsed }
{}
