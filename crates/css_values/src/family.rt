//! `font-family`: which of the faces `face0` to `face7` is meant (docs/PROFILE/properties.md).

ghost use Rattle.std.specs.Prelude.{◌≡◌};
ghost use Rattle.css_tokens.specs.Tokens.{lexeme_of};
ghost use Rattle.css_values.specs.Longhand as definitions;
ghost use Rattle.css_values.specs.Family.{first_of, found_behind};
ghost use Rattle.css_values.specs.Views.{lexemes_of};

use css_tokens::Token;
use css_types::Value;
use reading::strip_either_case;

/// The first face among names and strings with commas between them, and face 0 where there is none.
#[tactic(auto, using(crate::proofs::Families::starts, crate::proofs::Families::goes_on, crate::proofs::Families::stops, crate::proofs::Families::ends_behind, crate::proofs::Families::ends_before))]
pub(crate) fn family(tokens: &[Token<'_>]) -> Option<Value>
    ensures { result ≡ definitions.family (lexemes_of tokens.now) }
{
    let mut face = None;
    let mut entry_next = true;
    for token in tokens {
        let Some(found) = behind(entry_next, face, *token) else {
            return None;
        };
        face = found;
        entry_next = !entry_next;
    }
    if entry_next {
        None
    } else {
        Some(Value::Face(number_or_0(face)))
    }
}

// The face that was found behind this token, where it may stand here: an entry, or a comma behind one.
fn behind(entry_next: bool, face: Option<u8>, token: Token<'_>) -> Option<Option<u8>>
    ensures { result ≡ found_behind entry_next face (lexeme_of token.entry) }
{
    match token {
        Token::Name(text) | Token::Quoted(text) if entry_next => {
            Some(first_of(face, face_number(text)))
        }
        Token::Sign(b',') if !entry_next => Some(face),
        _ => None,
    }
}

fn first_of(face: Option<u8>, other: Option<u8>) -> Option<u8>
    ensures { result ≡ first_of face other }
{
    match face {
        Some(number) => Some(number),
        None => other,
    }
}

fn number_or_0(face: Option<u8>) -> u8
    ensures { result ≡ definitions.number_or face 0 }
{
    match face {
        Some(number) => number,
        None => 0,
    }
}

// The number of a face of the profile.
#[tactic(auto, unfolding(crate::specs::Longhand::face_number))]
fn face_number(name: &str) -> Option<u8>
    ensures { result ≡ definitions.face_number name.now }
{
    match strip_either_case("face", name) {
        Ok(rest) => face_digit(rest),
        Err(_) => None,
    }
}

fn face_digit(text: &str) -> Option<u8>
    ensures { result ≡ definitions.face_digit text.now }
{
    match text.as_bytes() {
        [digit @ b'0'..=b'7'] => Some(*digit - b'0'),
        _ => None,
    }
}
