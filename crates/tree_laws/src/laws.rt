//! What holds of documents, as they are opened and as they are edited.

ghost use Rattle.tree_laws.specs.Doable.{StepsCanBeDoneAgain, StepsCanBeTakenBack};
ghost use Rattle.tree_laws.specs.Held.{EditsKeepHeld, OpenedAreHeld};
ghost use Rattle.tree_laws.specs.Laws.{AcceptedAreDone, ChildrenHaveParents, CountsAreTotals, EditsKeepWhole, EditsWeigh, OpenedAreWhole, TreesWeighNoMore};
ghost use Rattle.tree_laws.specs.Reached.{EditsKeepReached, OpenedAreReached};
ghost use Rattle.tree_laws.specs.Stepped.{StepsLeadBack, StepsLeadThere};

/// Each child of a node of a whole document has that node as its parent.
pub fn children_have_parents()
    ensures { ChildrenHaveParents }
{}

/// The tree of a document has no more than its nodes have together, whatever is counted: each node of the tree is one that lives, and it is
/// met once.
pub fn trees_weigh_no_more()
    ensures { TreesWeighNoMore }
{}

/// Where each node counts as one, the nodes have together what lives.
pub fn live_counts_are_totals()
    ensures { CountsAreTotals }
{}

/// A document that was opened is whole, and has as many nodes and as many bytes of text as were read.
pub fn opened_documents_are_whole()
    ensures { OpenedAreWhole }
{}

/// An edit that is accepted is one that nothing refuses, and what it leads to is the state after it.
pub fn accepted_edits_are_done()
    ensures { AcceptedAreDone }
{}

/// A whole document is whole after each edit that isn't refused.
pub fn accepted_edits_keep_documents_whole()
    ensures { EditsKeepWhole }
{}

/// After an edit that isn't refused no more nodes live than may, and no more bytes of text stand there than before with those that the
/// edit brings.
pub fn accepted_edits_weigh()
    ensures { EditsWeigh }
{}

/// In a document that was opened each node that lives stands below `html`, at a level that is below the greatest depth.
pub fn opened_documents_are_reached()
    ensures { OpenedAreReached }
{}

/// So it does in a whole document after each edit that isn't refused, where nodes that are inserted are those of a fragment, each with its
/// own declarations.
pub fn accepted_edits_keep_documents_reached()
    ensures { EditsKeepReached }
{}

/// The step of an edit that isn't refused leads back: done exactly after the edit, its one half leaves the state before, but for the next number, which
/// stays as it is.
pub fn steps_lead_back()
    ensures { StepsLeadBack }
{}

/// And it leads there again: done exactly in the state before, its other half leaves the state after the edit.
pub fn steps_lead_there_again()
    ensures { StepsLeadThere }
{}

/// In a document that was opened nodes stand in elements other than `br` alone.
pub fn opened_documents_are_held()
    ensures { OpenedAreHeld }
{}

/// So they do after each edit that isn't refused.
pub fn accepted_edits_keep_documents_held()
    ensures { EditsKeepHeld }
{}

/// In the state after an edit that isn't refused the half of its step that leads back can be done, whatever number is next.
pub fn steps_can_be_taken_back()
    ensures { StepsCanBeTakenBack }
{}

/// And in the state before it the half that leads there again.
pub fn steps_can_be_done_again()
    ensures { StepsCanBeDoneAgain }
{}
