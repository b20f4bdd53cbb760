//! A law of scripts. This function does nothing: its contract is the law.

ghost use Rattle.edit_script.specs.Fitting.{BringNoMore};

use html_read::laws::texts_stand_apart;
use html_tokens::laws::texts_are_of_the_repertoire;

/// The edits of a script bring no more bytes of text than the script has.
pub fn scripts_bring_no_more()
    ensures { BringNoMore }
{
    texts_stand_apart();
    texts_are_of_the_repertoire();
}
