//! Laws of states. These functions do nothing: their contracts are the laws.

ghost use Rattle.dom_store.specs.Laws.{AnswerAlike, KeepRoots, KeepSaid};

/// States that are the same have the same tree, and the same line at each number.
pub fn same_states_answer_alike()
    ensures { AnswerAlike }
{}

/// An edit that isn't refused leaves `html` and `body` where they stand, where each child stands in the node of which it
/// is one.
pub fn accepted_edits_keep_roots()
    ensures { KeepRoots }
{}

/// Where the numbers of declarations are such as a style sheet can say, they are so after an edit that brings such ones.
pub fn accepted_edits_stay_said()
    ensures { KeepSaid }
{}
