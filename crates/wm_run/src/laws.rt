//! Laws of runs. These functions do nothing: their contracts are the laws.

ghost use Rattle.wm_run.specs.Laws.{HaveOneResult, OweOnce};

use command_line::laws::read_as_spelled;
use input_due::laws::{inputs_have_one_due, inputs_owe_once};

/// Something is due for all words and every input, with a status, and nothing else is: so what `run` says of a front of what
/// is due is always said of one text.
pub fn runs_have_one_result()
    ensures { HaveOneResult }
{
    read_as_spelled();
    inputs_have_one_due();
}

/// Something is owed to the pages for all words and every input, and no other amount: so `run` always has one bound on what it counts.
pub fn runs_owe_once()
    ensures { OweOnce }
{
    read_as_spelled();
    inputs_owe_once();
}
