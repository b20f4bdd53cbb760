//! What a box comes to hangs on what is above it and beside it by its constraint alone, and by the mode and the used direction of its
//! containing block (CSS 2, 10.1).

ghost use Rattle.flow_laws.specs.Constraint.{FragmentIsOfItsBox, SameBoxSameFragment};

/// In a layout the fragment of a box is what the box comes to under its constraint, wherever it stands.
pub fn a_fragment_is_what_its_box_comes_to()
    ensures { FragmentIsOfItsBox }
{}

/// One box at two places of two documents, in containing blocks of one mode and used direction that give it the same
/// constraint, has the same fragment with all that is inside it, wherever it stands.
pub fn the_same_box_has_the_same_fragment()
    ensures { SameBoxSameFragment }
{}
