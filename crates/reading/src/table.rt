//! Tables of names and of words.

ghost use Rattle.std.specs.Prelude.{◌≡◌, ◌≤◌, IfOk, bytes_eq, length};
ghost use Rattle.reading.specs.Names.{lowered, named, words_of};
ghost use Rattle.reading.specs.Readers as readers;
ghost use Rattle.reading.specs.Readers.{Answers};

use crate::texts::strip;

/// What the table has for a name, in either case.
#[tactic(auto, using(crate::proofs::Names::names_go_on, crate::proofs::Names::names_here, crate::proofs::Names::names_end))]
pub fn named<T: Copy>(table: &[(&str, T)], name: &str) -> Option<T>
    ensures { result ≡ named (words_of table.now) (lowered name.now) }
{
    for (other, value) in table {
        if same_name(other, name) {
            return Some(*value);
        }
    }
    None
}

/// Are the names one, in either case?
pub fn same_name(name: &str, other: &str) -> bool
    ensures { result ≡ bytes_eq (lowered name.now) (lowered other.now) }
{
    name.eq_ignore_ascii_case(other)
}

/// One of the words of the table. Where it is none, what is left behind the longest front of one.
#[tactic(auto, using(crate::proofs::Tables::words_start, crate::proofs::Tables::words_go_on, crate::proofs::Tables::words_end))]
pub fn one_word<'a, T: Copy>(table: &[(&str, T)], text: &'a str) -> Result<(T, &'a str), &'a [u8]>
    ensures read { Answers (λ c. (c.0, c.1.now)) result (readers.one_word (words_of table.now) text.now) }
    ensures shorter { IfOk result (λ c. length c.1.now ≤ length text.now) }
{
    let mut best = text.as_bytes();
    for (word, meaning) in table {
        match strip(word, text) {
            Ok(rest) => return Ok((*meaning, rest)),
            Err(left) => best = shorter_of(best, left),
        }
    }
    Err(best)
}

fn shorter_of<'a>(best: &'a [u8], left: &'a [u8]) -> &'a [u8]
    ensures { result.now ≡ readers.shorter_of best.now left.now }
{
    if left.len() < best.len() { left } else { best }
}
