//! Names, and words behind a `#` (CSS Syntax 3, 4.3.11).

ghost use Rattle.std.specs.Prelude.{◌≡◌, ◌≤◌, ◌<◌, true, length, IfOk, Ok};
ghost use Rattle.reading.specs.Readers as reading;
ghost use Rattle.reading.specs.Readers.{Answers};
ghost use Rattle.reading.specs.Cuts.{ReadsFront};
ghost use Rattle.css_tokens.specs.Characters as characters;
ghost use Rattle.css_tokens.specs.Cuts.{BeginsInAscii};
ghost use Rattle.css_tokens.specs.Lexing as readers;

use crate::cuts::cut_before;
use crate::numbers::number_ahead;
use reading::strip;

/// Can a name be read here? A letter, `_` or `-` comes, or a character from U+0080 on, and no number.
#[tactic(auto, unfolding(crate::specs::Lexing::name_ahead))]
pub fn name_ahead(text: &str) -> bool
    ensures { result ≡ readers.name_ahead text.now }
{
    name_start_ahead(text) && !number_ahead(text)
}

// A byte comes with which a name may begin.
fn name_start_ahead(text: &str) -> bool
    ensures { result ≡ reading.next_is characters.is_name_start text.now }
{
    match text.as_bytes() {
        [] => false,
        [byte, ..] => is_name_start(*byte),
    }
}

/// The letters, digits, `-`, `_` and characters from U+0080 on that come next, as they are written, and the text
/// behind them.
pub fn name(text: &str) -> (&str, &str)
    ensures read { readers.name text.now ≡ Ok (result.0.now, result.1.now) }
    ensures shorter { length result.1.now ≤ length text.now }
    ensures ahead { readers.name_ahead text.now ≡ true → length result.1.now < length text.now }
{
    cut_before(text, name_end(text.as_bytes()))
}

// The bytes from the first one on with which a name doesn't go on.
fn name_end(bytes: &[u8]) -> &[u8]
    ensures read { ReadsFront (reading.run_of characters.is_name_byte bytes.now) bytes.now result.now }
    ensures ascii { BeginsInAscii result.now }
{
    let mut rest = bytes;
    while let Some((byte, after)) = rest.split_first() {
        if !is_name_byte(*byte) {
            break;
        }
        rest = after;
    }
    rest
}

fn is_name_start(byte: u8) -> bool
    ensures { result ≡ characters.is_name_start byte }
{
    byte.is_ascii_alphabetic() || byte == b'_' || byte == b'-' || byte >= 128
}

fn is_name_byte(byte: u8) -> bool
    ensures { result ≡ characters.is_name_byte byte }
{
    is_name_start(byte) || byte.is_ascii_digit()
}

/// Does a `#` come, and directly behind it a byte of a name?
#[tactic(auto, unfolding(crate::specs::Lexing::hash_ahead, reading::specs::Readers::one_of))]
pub fn hash_ahead(text: &str) -> bool
    ensures { result ≡ readers.hash_ahead text.now }
{
    match strip("#", text) {
        Ok(rest) => name_byte_ahead(rest),
        Err(_) => false,
    }
}

#[tactic(auto, unfolding(reading::specs::Readers::one_of))]
fn name_byte_ahead(text: &str) -> bool
    ensures { result ≡ reading.can_read (reading.one_of characters.is_name_byte) text.now }
{
    match text.as_bytes() {
        [] => false,
        [byte, ..] => is_name_byte(*byte),
    }
}

/// The word directly behind a `#`, as it is written, and the text behind it. It may begin with a digit.
#[tactic(auto, unfolding(crate::specs::Lexing::hash))]
pub fn hash(text: &str) -> Result<(&str, &str), &[u8]>
    ensures read { Answers (λ h. (h.0.now, h.1.now)) result (readers.hash text.now) }
    ensures shorter { IfOk result (λ h. length h.1.now < length text.now) }
{
    Ok(name(strip("#", text)?))
}
