//! Laws of pages in four modes. These functions do nothing: their contracts are the laws.

ghost use Rattle.page_modes.specs.Pages.{DocumentsHaveOneFlow, UnshiftedPagesTurn};

/// The page of a document that can be turned is in each mode that of its flow, turned to the mode, with the shifts of relatively positioned
/// elements.
pub fn documents_have_one_flow()
    ensures { DocumentsHaveOneFlow }
{}

/// So is the page of such a document before any of it is shifted; turned to horizontal-tb it stays as it is.
pub fn unshifted_pages_turn()
    ensures { UnshiftedPagesTurn }
{}
