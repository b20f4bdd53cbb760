//! Laws of inputs. These functions do nothing: their contracts are the laws.

ghost use Rattle.input_due.specs.Laws.{HaveOneDue, OweOnce};

use edit_job::laws::{steps_have_an_end, steps_have_one_end, steps_owe_once};
use session::laws::one_answer;

/// Something is due for every input, and nothing else is.
pub fn inputs_have_one_due()
    ensures { HaveOneDue }
{
    one_answer();
    steps_have_an_end();
    steps_have_one_end();
}

/// Something is owed to the pages of every input, and no other amount.
pub fn inputs_owe_once()
    ensures { OweOnce }
{
    one_answer();
    steps_owe_once();
}
