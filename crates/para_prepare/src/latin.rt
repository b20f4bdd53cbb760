//! Latin text, told from other text by a pass that has nothing to decide on the way.

ghost use Rattle.std.specs.Prelude.{◌≡◌};
ghost use Rattle.std.specs.List.{list_all};
ghost use Rattle.para_prepare.specs.Latin.{is_latin};

use crate::letter::Letter;

/// Whether each of these is a character of Latin text. It goes over all of them.
pub(crate) fn are_latin(letters: &[Letter]) -> bool
    ensures { result ≡ list_all (λ l. is_latin l.char) letters.now }
{
    let mut all = true;
    for letter in letters {
        all &= is_latin(letter.char);
    }
    all
}

// A character before the combining marks, but for the carriage return.
fn is_latin(c: char) -> bool
    ensures { result ≡ is_latin c }
{
    c < '\u{300}' && c != '\r'
}
