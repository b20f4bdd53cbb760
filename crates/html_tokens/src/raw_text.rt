//! Characters that may be any, up to the first place where their end can be read.

ghost use Rattle.std.specs.Prelude.{◌≤◌, length, IfOk};
ghost use Rattle.reading.specs.Readers.{Answers};
ghost use Rattle.html_tokens.specs.Lexing as readers;
ghost use Rattle.html_tokens.specs.RawText.{begins_with_its_mark, is_some, mark_is_ascii};

use crate::lexing::end_of;
use reading::{Ending, strip, up_to_end};

/// What ends them: `-->`, or an end tag.
#[derive(Clone, Copy, Debug, PartialEq, Eq)]
pub enum RawEnd {
    Comment,
    Title,
    Style,
}

impl Ending for RawEnd {
    ghost reads = { readers.raw_end };

    ghost mark = { readers.raw_mark };

    fn first_byte(&self) -> u8 {
        match *self {
            RawEnd::Comment => b'-',
            RawEnd::Title | RawEnd::Style => b'<',
        }
    }

    fn strip_from<'a>(&self, text: &'a str) -> Result<&'a str, &'a [u8]> {
        match *self {
            RawEnd::Comment => strip("-->", text),
            RawEnd::Title => end_of("title", text),
            RawEnd::Style => end_of("style", text),
        }
    }

    ghost ascii = { mark_is_ascii };

    ghost begins = { begins_with_its_mark };

    ghost some = { is_some };
}

/// The characters, and what stands behind their end.
#[tactic(auto, unfolding(crate::specs::Lexing::raw))]
pub fn raw(end: RawEnd, text: &str) -> Result<(&str, &str), &[u8]>
    ensures read { Answers (λ r. (r.0.now, r.1.now)) result (readers.raw end text.now) }
    ensures shorter { IfOk result (λ r. length r.1.now ≤ length text.now) }
{
    up_to_end(&end, text)
}
