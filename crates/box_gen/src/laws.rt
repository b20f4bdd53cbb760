//! Laws of boxes. The functions do nothing: their contracts are the laws.

ghost use Rattle.box_gen.specs.Laws.{ContainersStandOnce, HiddenNodesAreNothing, ItemsArePaired, PiecesHaveEdges, TextsStandOnce};
ghost use Rattle.box_gen.specs.Places.{BoxesAreNamedOnce, NamesAreOfPlaces};

/// Each block-level element and each inline-block that is shown has one box of its own, in document order, in a box of its block
/// container, whatever inline boxes stand between the two.
pub fn containers_stand_once()
    ensures { ContainersStandOnce }
{}

/// Each text that is shown stands in the boxes once, in document order, but that one of white space alone may stand in none.
pub fn texts_stand_once()
    ensures { TextsStandOnce }
{}

/// In each paragraph inline boxes and pieces of them begin and end as brackets do.
pub fn items_are_paired()
    ensures { ItemsArePaired }
{}

/// Hidden elements and hidden line breaks change no box.
pub fn hidden_nodes_are_nothing()
    ensures { HiddenNodesAreNothing }
{}

/// Of the pieces of an inline box the first alone has its inline-start edges, and the last alone its inline-end edges.
pub fn pieces_have_edges()
    ensures { PiecesHaveEdges }
{}

/// Where no two nodes have one number, no two boxes have one name.
pub fn boxes_are_named_once()
    ensures { BoxesAreNamedOnce }
{}

/// The names of boxes are those of the places at which they stand, and the names of paragraphs those of the boxes that hold one.
pub fn names_are_of_places()
    ensures { NamesAreOfPlaces }
{}
