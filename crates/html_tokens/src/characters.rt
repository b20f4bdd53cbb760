//! Characters of a text, and the bytes of names.

ghost use Rattle.std.specs.Prelude.{◌≡◌};
ghost use Rattle.html_tokens.specs.Characters.{in_repertoire, is_name_byte};
ghost use Rattle.html_tokens.specs.Pieces.{IsFirstChar};

use wm_chars::bidi_class;

/// A byte with which a name goes on.
pub(crate) fn is_name_byte(byte: u8) -> bool
    ensures { result ≡ is_name_byte byte }
{
    byte.is_ascii_alphanumeric() || byte == b'-' || byte == b'_'
}

/// The first character, and what stands behind it.
pub(crate) fn first_char(text: &str) -> Option<(char, &str)>
    ensures { IsFirstChar result text.now }
{
    let mut chars = text.chars();
    let c = chars.next()?;
    Some((c, chars.as_str()))
}

/// The character is in the repertoire.
#[tactic(auto, unfolding(crate::specs::Characters::in_repertoire, wm_chars::specs::Repertoire::bidi_class))]
pub(crate) fn in_repertoire(c: char) -> bool
    ensures { result ≡ in_repertoire c }
{
    bidi_class(c).is_some()
}
