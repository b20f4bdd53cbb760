//! What the attributes of a tag say.

ghost use Rattle.std.specs.Prelude.{◌≡◌, ◌<◌, IfOk, IfErr, IfSome, length, map};
ghost use Rattle.std.specs.String.{string_bytes};
ghost use Rattle.reading.specs.Names.{lowered};
ghost use Rattle.html_tokens.specs.Attribute.{role_of};
ghost use Rattle.html_read.specs.Views.{EndsWord, IsNextWord, IsWordNext};
ghost use Rattle.reading.specs.Stop.{Gives};
ghost use Rattle.html_read.specs.Judging as judging;
ghost use Rattle.html_read.specs.Values.{acting_of};
ghost use Rattle.html_tokens.specs.Written.{attribute_of};
ghost use Rattle.html_read.specs.Views.{TellsNew};
ghost use Rattle.reading.specs.declared.stop.Stop.TheVariants as Stops;

use crate::node::{Attributes, PlacedText};
use html_tokens::{Refusal, Role, WrittenAttribute, role_of};
use letters::{LetterList, Letters};
use reading::{Stop, front_of, same_name, spaces};
use std::alloc::Global;
use std::collections::BTreeSet;
use wm_modes::Direction;

/// What the attributes say, from left to right. Places are counted in an input of `size` bytes.
#[tactic(auto, unfolding(crate::specs::Judging::judged))]
pub(crate) fn judged<'a>(
    alloc: Global,
    size: usize,
    attributes: Vec<WrittenAttribute<'a>>,
) -> Result<Attributes, Stop<'a, Refusal>>
    ensures { Gives acting_of result (judging.judged size (map attribute_of attributes.entry.items)) }
{
    let mut said = Attributes {
        id: None,
        classes: LetterList::new(alloc),
        dir: None,
        style: None,
    };
    let mut seen = BTreeSet::new(alloc);
    for attribute in attributes {
        if !is_new(alloc, attribute.name, &mut seen)? {
            return Err(Stop::Refused(Refusal::Syntax, attribute.left.as_bytes()));
        }
        with_attribute(alloc, size, attribute, &mut said)?;
    }
    Ok(said)
}

// Isn't the name among those seen, in either case? From here on it is.
fn is_new(
    alloc: Global,
    name: &str,
    seen: &mut BTreeSet<Letters>,
) -> Result<bool, Stop<'static, Refusal>>
    ensures { TellsNew (lowered name.now) seen.old seen.new result }
{
    let mut letters = Letters::from_str(alloc, name)?;
    letters.make_ascii_lowercase();
    Ok(seen.insert(letters)?)
}

// What this attribute says, too.
fn with_attribute<'a>(
    alloc: Global,
    size: usize,
    attribute: WrittenAttribute<'a>,
    said: &mut Attributes,
) -> Result<(), Stop<'a, Refusal>>
    ensures { Gives (λ u. acting_of said.new) result (judging.with_attribute size (role_of (attribute_of attribute.entry).name) (attribute_of attribute.entry) (acting_of said.old)) }
{
    match role_of(attribute.name) {
        None => return Err(Stop::Refused(Refusal::UnknownAttribute, attribute.left.as_bytes())),
        Some(Role::Id) => said.id = Some(attribute.value),
        Some(Role::Class) => said.classes = words(alloc, attribute.value.as_str())?,
        Some(Role::Style) => {
            said.style = Some(PlacedText {
                text: attribute.value,
                place: size.saturating_sub(attribute.left.len()),
            });
        }
        Some(Role::Dir) => match direction_of(attribute.value.as_str()) {
            Some(direction) => said.dir = Some(direction),
            None => return Err(Stop::Refused(Refusal::Unsupported, attribute.left.as_bytes())),
        },
        Some(Role::Ignored) => {}
    }
    Ok(())
}

#[tactic(auto, unfolding(crate::specs::Judging::direction_of))]
fn direction_of(value: &str) -> Option<Direction>
    ensures { result ≡ judging.direction_of value.now }
{
    if same_name(value, "ltr") {
        Some(Direction::Ltr)
    } else if same_name(value, "rtl") {
        Some(Direction::Rtl)
    } else {
        None
    }
}

// The words of a text, between white space.
fn words(alloc: Global, text: &str) -> Result<LetterList, Stop<'static, Refusal>>
    ensures words { IfOk result (λ w. map (λ s. string_bytes s) w.items ≡ judging.words text.now) }
    ensures memory { IfErr result (λ stop. stop ≡ Stops.Memory) }
{
    let mut words = LetterList::new(alloc);
    let mut rest = text;
    while let Some((word, after)) = next_word(rest) {
        words.push(Letters::from_str(alloc, word)?)?;
        rest = after;
    }
    Ok(words)
}

// The next word of a text, and what stands behind it.
#[tactic(auto, using(crate::proofs::Words::no_word, crate::proofs::Words::next_word, crate::proofs::Words::word_starts))]
fn next_word(text: &str) -> Option<(&str, &str)>
    ensures read { IsNextWord text.now result }
    ensures shorter { IfSome result (λ w. length w.1.now < length text.now) }
{
    let here = spaces(text);
    if here.is_empty() {
        return None;
    }
    let rest = word_end(here);
    Some((front_of(here, rest), rest))
}

// What stands behind the word with which the text begins.
#[tactic(auto, using(crate::proofs::Words::word_goes_on, crate::proofs::Words::word_stops, crate::proofs::Words::word_ends, crate::proofs::Words::word_cut, crate::proofs::Words::word_begins, crate::proofs::Words::word_shorter, crate::proofs::Words::word_to_end))]
fn word_end(text: &str) -> &str
    requires { IsWordNext text.now }
    ensures read { EndsWord text.now result.now }
    ensures shorter { length result.now < length text.now }
{
    for at in 0..text.len() {
        if text.as_bytes()[at].is_ascii_whitespace() {
            return text.split_at(at).1;
        }
    }
    text.split_at(text.len()).1
}
