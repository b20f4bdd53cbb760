//! Names and the words that they are.

ghost use Rattle.std.specs.Prelude.{◌≡◌, codes};
ghost use Rattle.reading.specs.Readers as readers;
ghost use Rattle.css_values.specs.Judging as judging;
ghost use Rattle.css_values.specs.Longhand as longhands;
ghost use Rattle.css_values.specs.Views.{lexemes_of, texts_of};

use css_tokens::Token;
use reading::{same_name, strip_either_case};

/// Is the name one of these words, in either case?
#[tactic(auto, using(crate::proofs::Anywhere::one_goes_on, crate::proofs::Anywhere::one_here, crate::proofs::Anywhere::one_nowhere))]
pub(crate) fn is_one_of(words: &[&str], name: &str) -> bool
    ensures { result ≡ longhands.is_one_of (texts_of words.now) name.now }
{
    for word in words {
        if same_name(word, name) {
            return true;
        }
    }
    false
}

/// Does the name begin with one of these, in either case?
#[tactic(auto, using(crate::proofs::Anywhere::begins_goes_on, crate::proofs::Anywhere::begins_here, crate::proofs::Anywhere::begins_nowhere))]
pub(crate) fn begins_so(fronts: &[&str], name: &str) -> bool
    ensures { result ≡ judging.begins_so (texts_of fronts.now) name.now }
{
    for front in fronts {
        if begins(front, name) {
            return true;
        }
    }
    false
}

fn begins(front: &str, name: &str) -> bool
    ensures { result ≡ readers.can_read (readers.strip_either_case front.now) name.now }
{
    strip_either_case(front, name).is_ok()
}

/// Is the whole value this word, in either case?
pub(crate) fn is_word_alone(word: &str, tokens: &[Token<'_>]) -> bool
    ensures { result ≡ longhands.is_name (longhands.is_word word.now) (lexemes_of tokens.now) }
{
    match tokens {
        [Token::Name(name)] => same_name(word, *name),
        _ => false,
    }
}

/// Is the whole value one of these words, in either case?
pub(crate) fn is_one_alone(words: &[&str], tokens: &[Token<'_>]) -> bool
    ensures { result ≡ longhands.is_name (longhands.is_one_of (texts_of words.now)) (lexemes_of tokens.now) }
{
    match tokens {
        [Token::Name(name)] => is_one_of(words, *name),
        _ => false,
    }
}
