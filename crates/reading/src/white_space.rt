//! White space (Infra, 4.6: ASCII whitespace).

ghost use Rattle.std.specs.Prelude.{◌≡◌, ◌≤◌, ◌<◌, length, IfOk, Ok};
ghost use Rattle.reading.specs.Readers as readers;
ghost use Rattle.reading.specs.Readers.{Answers};
ghost use Rattle.reading.specs.White as blanks;
ghost use Rattle.reading.specs.White.{is_white};

use crate::texts::first;

/// The text behind the white space that it begins with: tab, LF, FF, CR and space.
#[tactic(auto, unfolding(crate::specs::White::spaces, crate::specs::Readers::skip))]
pub fn spaces(text: &str) -> &str
    ensures read { blanks.spaces text.now ≡ Ok (tt, result.now) }
    ensures shorter { length result.now ≤ length text.now }
{
    let mut rest = text;
    while let Some((byte, after)) = first(rest) {
        if !byte.is_ascii_whitespace() {
            break;
        }
        rest = after;
    }
    rest
}

/// The text behind one character of white space, or all its bytes where none comes next.
#[tactic(auto, unfolding(crate::specs::White::white, crate::specs::Readers::one_of))]
pub fn white(text: &str) -> Result<&str, &[u8]>
    ensures read { Answers (λ rest. (tt, rest.now)) result (blanks.white text.now) }
    ensures shorter { IfOk result (λ rest. length rest.now < length text.now) }
{
    match first(text) {
        Some((byte, after)) if byte.is_ascii_whitespace() => Ok(after),
        _ => Err(text.as_bytes()),
    }
}

/// Does white space come next?
#[tactic(auto, using(crate::proofs::Running::no_white))]
pub fn white_ahead(text: &str) -> bool
    ensures { result ≡ readers.next_is is_white text.now }
{
    match first(text) {
        Some((byte, _)) => byte.is_ascii_whitespace(),
        None => false,
    }
}
