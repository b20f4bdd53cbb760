//! What an edit leaves as it is.

ghost use Rattle.edit_scope.specs.Boxes.{PagesAreBoxesOfHtml};
ghost use Rattle.edit_scope.specs.Exactly.{ExactUnscopedPlaces, ExactUntouchedPlaces};
ghost use Rattle.edit_scope.specs.Laws.{UnscopedContent, UnscopedLines, UntouchedBelow, UntouchedBoxes, UntouchedLines};
ghost use Rattle.edit_scope.specs.Leaves.{EditsKeepLeaves, OpenedTextsAreLeaves};
ghost use Rattle.edit_scope.specs.Pages.{BoxesAreOfElements, PagesHaveBoxes, PagesNameBoxesOnce, UnscopedPlaces, UntouchedPlaces};

/// In a document that was opened no text has children.
pub fn texts_of_opened_documents_are_leaves()
    ensures { OpenedTextsAreLeaves }
{}

/// Nor has one after an edit that isn't refused, where inserted nodes are those of a fragment.
pub fn accepted_edits_keep_texts_leaves()
    ensures { EditsKeepLeaves }
{}

/// An element that isn't in the scope of an edit stands below the nodes below which it stood, and these are what they were.
pub fn elements_outside_the_scope_keep_their_lines()
    ensures { UnscopedLines }
{}

/// So does one with a box of its own that isn't touched.
pub fn untouched_elements_keep_their_lines()
    ensures { UntouchedLines }
{}

/// It is what it was, and so is all below it.
pub fn untouched_elements_keep_what_is_below()
    ensures { UntouchedBelow }
{}

/// It has the style that it had, in a holder of the style that this had, and its box is the one that it was, with all inside it.
pub fn untouched_elements_keep_their_boxes()
    ensures { UntouchedBoxes }
{}

/// An element with a box of its own that isn't in the scope of an edit has in its box, and in the anonymous blocks there, the content that it
/// had; the boxes of others in them may be other ones.
pub fn elements_outside_the_scope_keep_their_content()
    ensures { UnscopedContent }
{}

/// The boxes of a page are the box of `html`, with all inside it.
pub fn pages_are_boxes_of_html()
    ensures { PagesAreBoxesOfHtml }
{}

/// A box of a page that is an element's own is the box of that element, with all inside it.
pub fn pages_have_boxes_of_elements()
    ensures { PagesHaveBoxes }
{}

/// No two boxes of a page have one name.
pub fn pages_name_boxes_once()
    ensures { PagesNameBoxesOnce }
{}

/// Each box of a page is of an element of the document.
pub fn boxes_are_of_elements()
    ensures { BoxesAreOfElements }
{}

/// A box of an element that isn't in the scope of an edit was there before it, with its name, its style and its content, on a page whose
/// `html` had the same mode.
pub fn boxes_outside_the_scope_were_there()
    ensures { UnscopedPlaces }
{}

/// A box of an element that isn't touched was there with all inside it, in a box whose lines ran alike.
pub fn untouched_boxes_were_there()
    ensures { UntouchedPlaces }
{}

/// A box of an element that isn't in the scope of an exact edit was there before it, with its name, its style and its content, on a page whose
/// `html` had the same mode.
pub fn boxes_outside_the_scope_of_an_exact_edit_were_there()
    ensures { ExactUnscopedPlaces }
{}

/// A box of an element that an exact edit doesn't touch was there with all inside it, in a box whose lines ran alike.
pub fn boxes_untouched_by_an_exact_edit_were_there()
    ensures { ExactUntouchedPlaces }
{}
