//! Laws of documents within the limits, and of their pages in other modes. These functions do nothing: their contracts are the laws.

ghost use Rattle.session.specs.Editing.{BringNoMore, HasOneOutcome};
ghost use Rattle.session.specs.Limits.{BoxesFit, DocumentsFit};
ghost use Rattle.session.specs.Opening.{HasOneAnswer};
ghost use Rattle.session.specs.Spread.{SpreadIsNear};
ghost use Rattle.session.specs.Turning.{TurnableFlowsTurn, TurnablePagesTurn};

use page_modes::laws::{documents_have_one_flow, unshifted_pages_turn};
use tree_laws::laws::{accepted_edits_weigh, live_counts_are_totals, trees_weigh_no_more};

/// The boxes of a document within the limits can be laid out.
pub fn boxes_within_limits_fit()
    ensures { BoxesFit }
{}

/// A document that is whole is within the limits where its nodes and their texts are.
pub fn documents_within_limits_fit()
    ensures { DocumentsFit }
{
    trees_weigh_no_more();
    live_counts_are_totals();
}

/// No coordinate is too far out of fragments that don't spread too far, in the flow and on the page.
pub fn what_does_not_spread_is_near()
    ensures { SpreadIsNear }
{}

/// A document can be opened, or is refused, and for one reason alone.
pub fn one_answer()
    ensures { HasOneAnswer }
{}

/// An edit can be applied, or is refused, and for one reason alone.
pub fn one_outcome()
    ensures { HasOneOutcome }
{}

/// After an edit that isn't refused the texts of a document hold no more bytes than before it with those that it brings.
pub fn edits_bring_no_more()
    ensures { BringNoMore }
{
    accepted_edits_weigh();
}

/// A document that can be turned has in each mode its own page, turned to the mode, with the shifts of relatively positioned elements.
pub fn turnable_pages_turn()
    ensures { TurnablePagesTurn }
{
    documents_have_one_flow();
}

/// So it has its own flow, turned to the mode, before any of it is shifted.
pub fn turnable_flows_turn()
    ensures { TurnableFlowsTurn }
{
    unshifted_pages_turn();
}
