//! Fixed texts and single bytes.

ghost use Rattle.std.specs.Prelude.{◌≡◌, ◌<◌, ◌≤◌, length, IfOk};
ghost use Rattle.std.specs.Char.{IsAsciiDigit, is_ascii_digit};
ghost use Rattle.reading.specs.Readers as readers;
ghost use Rattle.reading.specs.Readers.{Answers, IsAsciiFirst, IsFirst};

/// The first byte of the text where it is ASCII, and the text behind it.
pub fn first(text: &str) -> Option<(u8, &str)>
    ensures { IsAsciiFirst result text.now }
{
    match text.as_bytes() {
        [] => None,
        [byte, ..] => {
            if byte.is_ascii() {
                Some((*byte, &text[1..]))
            } else {
                None
            }
        }
    }
}

/// The text behind `word`, or the bytes that are left where they differ from it.
pub fn strip<'a>(word: &str, text: &'a str) -> Result<&'a str, &'a [u8]>
    ensures read { Answers (λ rest. (tt, rest.now)) result (readers.strip word.now text.now) }
    ensures shorter { IfOk result (λ rest. length rest.now ≤ length text.now) }
{
    strip_bytes(word.as_bytes(), text.as_bytes())?;
    Ok(&text[word.len()..])
}

// The bytes after `word`, or those that are left where they differ from it.
fn strip_bytes<'a>(word: &[u8], bytes: &'a [u8]) -> Result<&'a [u8], &'a [u8]>
    ensures { Answers (λ rest. (tt, rest.now)) result (readers.strip word.now bytes.now) }
{
    let mut rest = bytes;
    for wanted in word {
        let Some((byte, after)) = next(rest) else {
            return Err(rest);
        };
        if byte != *wanted {
            return Err(rest);
        }
        rest = after;
    }
    Ok(rest)
}

/// The text behind `word`, in which ASCII letters may stand in either case, or the bytes that are left where they
/// differ from it. The letters of `word` are small.
pub fn strip_either_case<'a>(word: &str, text: &'a str) -> Result<&'a str, &'a [u8]>
    ensures read { Answers (λ rest. (tt, rest.now)) result (readers.strip_either_case word.now text.now) }
    ensures shorter { IfOk result (λ rest. length rest.now ≤ length text.now) }
{
    strip_cased_bytes(word.as_bytes(), text.as_bytes())?;
    Ok(&text[word.len()..])
}

// The bytes after `word`, in which ASCII letters may stand in either case, or those that are left where they differ
// from it.
fn strip_cased_bytes<'a>(word: &[u8], bytes: &'a [u8]) -> Result<&'a [u8], &'a [u8]>
    ensures { Answers (λ rest. (tt, rest.now)) result (readers.strip_either_case word.now bytes.now) }
{
    let mut rest = bytes;
    for wanted in word {
        let Some((byte, after)) = next(rest) else {
            return Err(rest);
        };
        if byte.to_ascii_lowercase() != *wanted {
            return Err(rest);
        }
        rest = after;
    }
    Ok(rest)
}

// The first byte, and the bytes behind it.
fn next(bytes: &[u8]) -> Option<(u8, &[u8])>
    ensures { IsFirst result bytes.now }
{
    match bytes {
        [] => None,
        [byte, after @ ..] => Some((*byte, after)),
    }
}

/// Does the text begin with `word`?
#[tactic(auto, unfolding(crate::specs::Readers::starts))]
pub fn starts(word: &str, text: &str) -> bool
    ensures { result ≡ readers.starts word.now text.now }
{
    strip_bytes(word.as_bytes(), text.as_bytes()).is_ok()
}

/// One decimal digit, as its byte, and the text behind it.
#[tactic(auto, unfolding(crate::specs::Readers::one_of))]
pub fn digit(text: &str) -> Result<(u8, &str), &[u8]>
    ensures read { Answers (λ d. (d.0, d.1.now)) result (readers.one_of is_ascii_digit text.now) }
    ensures digit { IfOk result (λ d. IsAsciiDigit d.0) }
    ensures shorter { IfOk result (λ d. length d.1.now < length text.now) }
{
    let Some((byte, rest)) = first(text) else {
        return Err(text.as_bytes());
    };
    if byte.is_ascii_digit() {
        Ok((byte, rest))
    } else {
        Err(text.as_bytes())
    }
}
