//! Bytes that are characters of a text by themselves, passed over many at once.

ghost use Rattle.std.specs.Prelude.{◌≡◌, ◌≤◌, take, true, length};
ghost use Rattle.std.specs.List.{list_all};
ghost use Rattle.html_tokens.specs.Pieces.{is_plain_letter};

/// How many bytes are looked at at once.
const BLOCK: usize = 8;

/// How many of these bytes in front are plain: all up to the first that isn't.
pub(crate) fn plain_count(bytes: &[u8]) -> usize
    ensures within { result ≤ length bytes.now }
    ensures plain { list_all is_plain_letter (take result bytes.now) ≡ true }
{
    // In text of other scripts few plain bytes stand side by side, for which whole blocks would be looked at in vain.
    if !starts_plain(bytes) {
        return plain_in(bytes);
    }
    let start = plain_blocks(bytes);
    let (_, rest) = bytes.split_at(start);
    start + plain_in(rest)
}

// Whether there are two bytes in front that are plain.
fn starts_plain(bytes: &[u8]) -> bool {
    match bytes {
        [first, second, ..] => is_plain_letter(*first) && is_plain_letter(*second),
        _ => false,
    }
}

// How many of these bytes in front are plain, looked at byte by byte.
fn plain_in(bytes: &[u8]) -> usize
    ensures within { result ≤ length bytes.now }
    ensures plain { list_all is_plain_letter (take result bytes.now) ≡ true }
{
    for at in 0..bytes.len() {
        if !is_plain_letter(bytes[at]) {
            return at;
        }
    }
    bytes.len()
}

// How many bytes are in the whole blocks in front of which all bytes are plain. A whole block is looked at faster than its
// bytes one by one.
fn plain_blocks(bytes: &[u8]) -> usize
    ensures within { result ≤ length bytes.now }
    ensures plain { list_all is_plain_letter (take result bytes.now) ≡ true }
{
    let mut start = 0;
    while bytes.len() - start >= BLOCK {
        if !are_plain(&bytes[start..start + BLOCK]) {
            return start;
        }
        start += BLOCK;
    }
    start
}

// Whether all these bytes are plain. It goes over all of them, with nothing to decide on the way.
fn are_plain(bytes: &[u8]) -> bool
    ensures { result ≡ list_all is_plain_letter bytes.now }
{
    let mut plain = true;
    for byte in bytes {
        plain &= is_plain_letter(*byte);
    }
    plain
}

// A byte that is a character of the repertoire, and neither `<` nor `&`.
fn is_plain_letter(byte: u8) -> bool
    ensures { result ≡ is_plain_letter byte }
{
    byte == b'\n' || (b' ' <= byte && byte <= b'~' && byte != b'<' && byte != b'&')
}
