//! Laws of scripts over documents. These functions do nothing: their contracts are the laws.

ghost use Rattle.edit_job.specs.Owed.{AllAreOwedAtFirst, AreOwedOnce};
ghost use Rattle.edit_job.specs.Steps.{HaveAnEnd, HaveOneEnd};

use box_gen::laws::names_are_of_places;
use edit_scope::laws::boxes_are_of_elements;
use session::laws::one_outcome;

/// The steps of a script lead to one state of a document, and what is due for them is one.
pub fn steps_have_one_end()
    ensures { HaveOneEnd }
{
    one_outcome();
}

/// The steps of a script lead to a state of a document, whatever they are, and something is due for them.
pub fn steps_have_an_end()
    ensures { HaveAnEnd }
{
    one_outcome();
}

/// The steps of a script owe texts and contents to the pages of a document, whatever they are, and so many of both alone.
pub fn steps_owe_once()
    ensures { AreOwedOnce }
{
    one_outcome();
}

/// To the first page of a document each of its paragraphs is owed.
pub fn all_are_owed_at_first()
    ensures { AllAreOwedAtFirst }
{
    names_are_of_places();
    boxes_are_of_elements();
}
