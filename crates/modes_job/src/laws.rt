//! The law of the listings in four modes. This function does nothing: its contract is the law.

ghost use Rattle.modes_job.specs.Telling.{ModesAreTurns};

use page_modes::laws::documents_have_one_flow;

/// The listings of a document in each mode, laid out there, are those of its flow, turned, where the document can be turned.
pub fn modes_are_turns()
    ensures { ModesAreTurns }
{
    documents_have_one_flow();
}
