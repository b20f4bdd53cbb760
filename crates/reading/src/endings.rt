//! Bytes that may be any, up to the first place where their end can be read.

ghost use Rattle.std.specs.Prelude.{◌≡◌, ◌==◌, ◌≤◌, ◌<◌, ℕ, List, [], ◌∷◌, false, drop, length, IfOk, IfSome, ⊤};
ghost use Rattle.reading.specs.Readers as readers;
ghost use Rattle.reading.specs.Readers.{Answers, Reader};
ghost use Rattle.reading.specs.Endings.{EndsHere};

/// What ends a text that may hold any bytes, such as `*/`.
pub trait Ending {
    ghost reads: { Self → Reader ⊤ };

    /// The byte with which it begins. It is of ASCII, so a text can be cut before it.
    ghost mark: { Self → ℕ };

    fn first_byte(&self) -> u8
        ensures { result ≡ mark self.now };

    /// What stands behind it, where the text begins with it.
    fn strip_from<'a>(&self, text: &'a str) -> Result<&'a str, &'a [u8]>
        ensures read { Answers (λ rest. (tt, rest.now)) result (reads self.now text.now) }
        ensures shorter { IfOk result (λ rest. length rest.now ≤ length text.now) };

    ghost ascii: { (end_ : Self) → mark end_ < 128 };

    ghost begins: { (end_ : Self) (byte : ℕ) (after : List ℕ) → (byte == mark end_) ≡ false → readers.can_read (reads end_) (byte ∷ after) ≡ false };

    ghost some: { (end_ : Self) → readers.can_read (reads end_) [] ≡ false };
}

/// What stands before the first end, and what stands behind it.
#[tactic(auto, using(crate::proofs::Seeking::at_start, crate::proofs::Seeking::at_not_here, crate::proofs::Seeking::at_here, crate::proofs::Seeking::at_nothing))]
pub fn up_to_end<'a, E: Ending>(end: &E, text: &'a str) -> Result<(&'a str, &'a str), &'a [u8]>
    ensures read { Answers (λ r. (r.0.now, r.1.now)) result (readers.up_to (E.reads end.now) text.now) }
    ensures shorter { IfOk result (λ r. length r.1.now ≤ length text.now) }
{
    for at in 0..text.len() {
        if let Some(found) = end_at(end, text, at) {
            return Ok(found);
        }
    }
    Err(text.as_bytes().split_at(text.len()).1)
}

// What stands before this place, and what stands behind an end here.
fn end_at<'a, E: Ending>(end: &E, text: &'a str, at: usize) -> Option<(&'a str, &'a str)>
    requires { at < length text.now }
    ensures read { EndsHere (E.reads end.now) text.now at result }
    ensures shorter { IfSome result (λ r. length r.1.now ≤ length text.now) }
{
    // One look at the byte spares a cut of the text at nearly each place.
    if text.as_bytes()[at] != end.first_byte() {
        return None;
    }
    let (inside, here) = text.split_at(at);
    match end.strip_from(here) {
        Ok(rest) => Some((inside, rest)),
        Err(_) => None,
    }
}
