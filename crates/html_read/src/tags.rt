//! Start tags and end tags.

ghost use Rattle.std.specs.Prelude.{◌<◌, length, IfOk};
ghost use Rattle.reading.specs.Names.{lowered};
ghost use Rattle.html_tokens.specs.Tag.{is_void, tag_named};
ghost use Rattle.reading.specs.Stop.{Gives};
ghost use Rattle.html_read.specs.Reading as readers;
ghost use Rattle.html_read.specs.Values.{acting_of};
ghost use Rattle.html_read.specs.Views.{start_of};

use crate::judging::judged;
use crate::node::Attributes;
use html_tokens::{Refusal, Tag, attributes, end_name, is_void, name, tag_end, tag_named};
use reading::{Stop, same_name, strip, strip_either_case};
use std::alloc::Global;

/// An element that begins.
#[derive(Drop)]
pub(crate) struct Start<'a> {
    pub name: &'a str,
    pub tag: Tag,
    pub attributes: Attributes,
}

/// The start tag of this word, which begins with `<`: wholly read, and then judged.
#[tactic(auto, unfolding(crate::specs::Reading::start_of, crate::specs::Reading::tag_behind))]
pub(crate) fn start_of<'a>(
    alloc: Global,
    size: usize,
    word: &str,
    slash: bool,
    text: &'a str,
) -> Result<(Attributes, &'a str), Stop<'a, Refusal>>
    ensures read { Gives (λ r. (acting_of r.0, r.1.now)) result (readers.start_of size word.now slash text.now) }
    ensures shorter { IfOk result (λ r. length r.1.now < length text.now) }
{
    let rest = strip_either_case(word, text)?;
    let (all, rest) = attributes(alloc, rest)?;
    let rest = tag_end(slash, rest)?;
    Ok((judged(alloc, size, all)?, rest))
}

/// A start tag in `body`: wholly read, and then its name and its attributes judged.
#[tactic(auto, unfolding(crate::specs::Reading::start_tag, reading::specs::Readers::after))]
pub(crate) fn start_tag(
    alloc: Global,
    size: usize,
    text: &str,
) -> Result<(Start<'_>, &str), Stop<'_, Refusal>>
    ensures read { Gives (λ r. (start_of r.0, r.1.now)) result (readers.start_tag size text.now) }
    ensures shorter { IfOk result (λ r. length r.1.now < length text.now) }
{
    let rest = strip("<", text)?;
    let (name, rest) = name(rest)?;
    let (all, rest) = attributes(alloc, rest)?;
    let rest = tag_end(is_void(name), rest)?;
    let Some(tag) = tag_named(name) else {
        return Err(Stop::Refused(Refusal::UnknownTag, text.as_bytes()));
    };
    let attributes = judged(alloc, size, all)?;
    let start = Start {
        name,
        tag,
        attributes,
    };
    Ok((start, rest))
}

/// The end tag of an element of this name: wholly read, and then its name judged.
#[tactic(auto, unfolding(crate::specs::Reading::end_tag))]
pub(crate) fn end_tag<'a>(open_name: &str, text: &'a str) -> Result<&'a str, Stop<'a, Refusal>>
    ensures read { Gives (λ rest. (tt, rest.now)) result (readers.end_tag (lowered open_name.now) text.now) }
    ensures shorter { IfOk result (λ rest. length rest.now < length text.now) }
{
    let (name, rest) = end_name(text)?;
    if !same_name(name, open_name) {
        return Err(Stop::Refused(Refusal::Nesting, text.as_bytes()));
    }
    Ok(rest)
}
