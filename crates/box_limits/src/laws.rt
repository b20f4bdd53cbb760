//! Laws of the limit of boxes. These functions do nothing: their contracts are the laws.

ghost use Rattle.box_limits.specs.Limits.{DocumentsAreJudgedByLines, EditsAreJudgedByTheirParts};
ghost use Rattle.box_limits.specs.Rules.{RulesThatTurnNone};

use dom_store::laws::accepted_edits_keep_roots;
use tree_laws::laws::{accepted_edits_keep_documents_reached, accepted_edits_keep_documents_whole};

/// Whether a box breaks the limit is told by the line of its node alone.
pub fn documents_are_judged_by_lines()
    ensures { DocumentsAreJudgedByLines }
{}

/// Only boxes on which an edit hangs can break the limit after it.
pub fn edits_are_judged_by_their_parts()
    ensures { EditsAreJudgedByTheirParts }
{
    accepted_edits_keep_roots();
    accepted_edits_keep_documents_whole();
    accepted_edits_keep_documents_reached();
}

/// Rules that say nothing of the display or the writing mode bring no box past the limit.
pub fn rules_that_turn_none()
    ensures { RulesThatTurnNone }
{}
