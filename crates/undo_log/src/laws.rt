//! Laws of logs. These functions do nothing: their contracts are the laws.

ghost use Rattle.undo_log.specs.Laws.{ComeBack, ComeLast, DocumentsStayWhereMoreAreDrawn, StandForStates, StayFew, StepsOfEditsLeadBothWays};

use tree_laws::laws::{
    steps_can_be_done_again, steps_can_be_taken_back, steps_lead_back, steps_lead_there_again,
};

/// A step that is taken back and taken again leaves the log as it was; so does one that is taken again and taken back.
pub fn steps_down_and_up_come_back()
    ensures { ComeBack }
{}

/// A step that is recorded is the one that is taken back next, and none is taken again.
pub fn recorded_steps_come_last()
    ensures { ComeLast }
{}

/// There are never more than 64 steps.
pub fn steps_stay_few()
    ensures { StayFew }
{}

/// A log stands for the whole states that an editor's user has in mind: the step that is taken back next can be done, and
/// leads from the state that stands to the last one before it, and the log stands for the states then, and likewise ahead.
pub fn logs_stand_for_states()
    ensures { StandForStates }
{}

/// The step of an edit that isn't refused leads back to the state before it and there again, and both can be done, also where
/// later edits have drawn more numbers.
pub fn steps_of_edits_lead_both_ways()
    ensures { StepsOfEditsLeadBothWays }
{
    steps_lead_back();
    steps_lead_there_again();
    steps_can_be_taken_back();
    steps_can_be_done_again();
}

/// What holds of a document holds of it also where more numbers were drawn since.
pub fn documents_stay_where_more_are_drawn()
    ensures { DocumentsStayWhereMoreAreDrawn }
{}
