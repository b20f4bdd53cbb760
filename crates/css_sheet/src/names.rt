//! The names in selectors (Selectors 3, 6).

ghost use Rattle.std.specs.Prelude.{◌≡◌, ◌≤◌, ◌<◌, IfOk, length};
ghost use Rattle.reading.specs.Readers.{Answers, next_is};
ghost use Rattle.css_sheet.specs.Halt.{IsBehindPoint, lowered_text};
ghost use Rattle.css_sheet.specs.Selector as readers;

use css_tokens::{hash, hash_ahead, name, name_ahead};
use reading::{first, strip};

/// A name. A `-` before a number begins one that stops at the number's first digit.
#[tactic(auto, unfolding(crate::specs::Selector::selector_name, reading::specs::Readers::starts))]
fn selector_name(text: &str) -> Result<(&str, &str), &[u8]>
    ensures read { Answers (λ n. (n.0.now, n.1.now)) result (readers.selector_name text.now) }
    ensures shorter { IfOk result (λ n. length n.1.now < length text.now) }
{
    if name_ahead(text) {
        return Ok(name(text));
    }
    match strip("-", text) {
        Ok(rest) => Err(behind_point(rest).as_bytes()),
        Err(_) => Err(text.as_bytes()),
    }
}

#[tactic(auto, unfolding(reading::specs::Readers::starts))]
fn behind_point(text: &str) -> &str
    ensures { IsBehindPoint text.now result.now }
{
    match strip(".", text) {
        Ok(rest) => rest,
        Err(_) => text,
    }
}

/// A type as it is written, or none for `*`.
#[tactic(auto, unfolding(crate::specs::Selector::type_name, reading::specs::Readers::starts), using(reading::proofs::Shorter::strip_strict))]
pub(crate) fn type_name(text: &str) -> Result<(Option<&str>, &str), &[u8]>
    ensures read { Answers (λ n. (lowered_text n.0, n.1.now)) result (readers.type_name text.now) }
    ensures shorter { IfOk result (λ n. length n.1.now < length text.now) }
{
    match strip("*", text) {
        Ok(rest) => Ok((None, rest)),
        Err(_) => {
            let (name, rest) = selector_name(text)?;
            Ok((Some(name), rest))
        }
    }
}

/// A class or an id comes next.
pub(crate) fn class_or_id_ahead(text: &str) -> bool
    ensures { result ≡ next_is readers.is_dot_or_hash text.now }
{
    match first(text) {
        Some((byte, _)) => byte == b'.' || byte == b'#',
        None => false,
    }
}

/// A class.
pub(crate) fn class(text: &str) -> Result<(&str, &str), &[u8]>
    ensures read { Answers (λ n. (n.0.now, n.1.now)) result (readers.class text.now) }
    ensures shorter { IfOk result (λ n. length n.1.now < length text.now) }
{
    selector_name(strip(".", text)?)
}

/// An id, which may begin with a digit.
pub(crate) fn id(text: &str) -> Result<(&str, &str), &[u8]>
    ensures read { Answers (λ n. (n.0.now, n.1.now)) result (readers.id text.now) }
    ensures shorter { IfOk result (λ n. length n.1.now < length text.now) }
{
    if hash_ahead(text) {
        hash(text)
    } else {
        Err(strip("#", text)?.as_bytes())
    }
}
