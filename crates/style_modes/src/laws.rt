//! Laws of styles in four modes. These functions do nothing: their contracts are the laws.

ghost use Rattle.style_modes.specs.Tying.{NoneIsFirstWhereTurnable, NoneTiesWhereTurnable};
ghost use Rattle.style_modes.specs.Turned.{TurnableDocumentsArePlain, TurnableDocumentsTurn};

/// A document that no declaration ties to one mode has, in each way in which no text is upright, the styled tree that it has else, in that way.
pub fn turnable_documents_turn()
    ensures { TurnableDocumentsTurn }
{}

/// Such a document is one of a horizontal flow.
pub fn turnable_documents_are_plain()
    ensures { TurnableDocumentsArePlain }
{}

/// No declaration of a document ties it to one mode exactly where the document can be turned.
pub fn none_ties_where_turnable()
    ensures { NoneTiesWhereTurnable }
{}

/// So there is no place of a first one exactly then.
pub fn none_is_first_where_turnable()
    ensures { NoneIsFirstWhereTurnable }
{}
