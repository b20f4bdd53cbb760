//! Laws of shifts. These functions do nothing: their contracts are the laws.

ghost use Rattle.rel_shift.specs.Laws.{AddUp, GoNoFurther, OnlyPlacesChange, PositionsAreBounded, SizesSuffice, StayWithoutInsets};
ghost use Rattle.rel_shift.specs.Turned.{PositionsTurn, ShiftsTurn};

/// Nothing but the places of fragments changes: names, kinds, sizes and order stay, and so does the view.
pub fn only_places_change()
    ensures { OnlyPlacesChange }
{}

/// Where no element is relatively positioned, the page stays as it is.
pub fn pages_stay_without_insets()
    ensures { StayWithoutInsets }
{}

/// A node is shifted as its parent is, and by its own shift.
pub fn shifts_add_up()
    ensures { AddUp }
{}

/// Fragments go no further than the shifts of their nodes.
pub fn fragments_go_no_further()
    ensures { GoNoFurther }
{}

/// A styled tree has no more positions than nodes, and their insets are bounded where those of the nodes are.
pub fn positions_are_bounded()
    ensures { PositionsAreBounded }
{}

/// Where the view and the boxes of a page have sizes from 0 to 2^32 units, each containing block has.
pub fn sizes_of_boxes_suffice()
    ensures { SizesSuffice }
{}

/// A styled tree in a way has the positions of the tree, in that way.
pub fn positions_turn()
    ensures { PositionsTurn }
{}

/// A page of the flow whose root is a box, turned to a mode and shifted there, is the page that is shifted and then turned.
pub fn shifts_turn()
    ensures { ShiftsTurn }
{}
