//! The words of a line.

ghost use Rattle.std.specs.Prelude.{◌≡◌, ◌<◌, ◌≤◌, [], IfOk};
ghost use Rattle.std.specs.Char.{digit_value};
ghost use Rattle.reading.specs.Readers as reading;
ghost use Rattle.reading.specs.Readers.{Answers, next_is};
ghost use Rattle.html_tokens.specs.Characters.{in_repertoire};
ghost use Rattle.edit_script.specs.Command as readers;
ghost use Rattle.edit_script.specs.Views.{command_of};

use reading::{decimal, first, one_word, strip};
use wm_chars::bidi_class;

/// The greatest number of a face.
const GREATEST_FACE: u32 = 7;

/// The greatest advance that a script gives, in thousandths of the font size.
const GREATEST_ADVANCE: u32 = 10_000;

/// The word with which a line begins.
#[derive(Clone, Copy, PartialEq, Eq)]
pub(crate) enum Word {
    Text,
    Style,
    Class,
    Insert,
    Remove,
    Move,
    Metric,
    Retire,
    Rule,
    Unrule,
    Undo,
    Redo,
    Show,
}

/// The words, as they stand in lines.
pub(crate) static WORDS: [(&str, Word); 13] = [
    ("text", Word::Text),
    ("style", Word::Style),
    ("class", Word::Class),
    ("insert", Word::Insert),
    ("remove", Word::Remove),
    ("move", Word::Move),
    ("metric", Word::Metric),
    ("retire", Word::Retire),
    ("rule", Word::Rule),
    ("unrule", Word::Unrule),
    ("undo", Word::Undo),
    ("redo", Word::Redo),
    ("show", Word::Show),
];

/// Whether a character is set upright, behind its code.
pub(crate) static ORIENTATIONS: [(&str, bool); 2] = [(" h", false), (" u", true)];

/// What the words of a line say; `rest` is all that stands behind them.
#[derive(Clone, Copy, Drop)]
pub(crate) enum Command<'a> {
    Text {
        node: u32,
        rest: &'a str,
    },
    Style {
        node: u32,
        rest: &'a str,
    },
    Class {
        node: u32,
        rest: &'a str,
    },
    Insert {
        parent: u32,
        index: u32,
        rest: &'a str,
    },
    Remove {
        node: u32,
    },
    Move {
        node: u32,
        parent: u32,
        index: u32,
    },
    Metric {
        face: u8,
        c: char,
        upright: bool,
        value: u32,
    },
    Retire {
        face: u8,
    },
    Rule {
        rest: &'a str,
    },
    Unrule {
        index: u32,
    },
    Undo,
    Redo,
    Show,
}

/// Reads the words of a line, from its first byte to its last.
#[tactic(auto, unfolding(crate::specs::Command::command))]
pub(crate) fn words_of_line(line: &str) -> Result<Command<'_>, &[u8]>
    ensures { Answers (λ c. (command_of c, [])) result (readers.command line.now) }
{
    let (word, text) = first_word(line)?;
    let (command, left) = arguments(word, text)?;
    nothing(left)?;
    Ok(command)
}

#[tactic(auto, unfolding(crate::specs::Command::words))]
fn first_word(text: &str) -> Result<(Word, &str), &[u8]>
    ensures { Answers (λ w. (w.0, w.1.now)) result (reading.one_word readers.words text.now) }
{
    one_word(&WORDS, text)
}

// What stands behind the word.
#[tactic(auto, unfolding(crate::specs::Command::arguments))]
fn arguments(word: Word, text: &str) -> Result<(Command<'_>, &str), &[u8]>
    ensures { Answers (λ c. (command_of c.0, c.1.now)) result (readers.arguments word text.now) }
{
    match word {
        Word::Text => {
            let (node, rest, left) = node_and_rest(text)?;
            Ok((Command::Text { node, rest }, left))
        }
        Word::Style => {
            let (node, rest, left) = node_and_rest(text)?;
            Ok((Command::Style { node, rest }, left))
        }
        Word::Class => {
            let (node, rest, left) = node_and_rest(text)?;
            Ok((Command::Class { node, rest }, left))
        }
        Word::Insert => insert(text),
        Word::Remove => {
            let (node, left) = argument(text)?;
            Ok((Command::Remove { node }, left))
        }
        Word::Move => moved(text),
        Word::Metric => metric(text),
        Word::Retire => {
            let (face, left) = face_from(1, text)?;
            Ok((Command::Retire { face }, left))
        }
        Word::Rule => {
            let (rest, left) = all_behind(text)?;
            Ok((Command::Rule { rest }, left))
        }
        Word::Unrule => {
            let (index, left) = argument(text)?;
            Ok((Command::Unrule { index }, left))
        }
        Word::Undo => Ok((Command::Undo, text)),
        Word::Redo => Ok((Command::Redo, text)),
        Word::Show => Ok((Command::Show, text)),
    }
}

#[tactic(auto, unfolding(crate::specs::Command::node_and_rest))]
fn node_and_rest(text: &str) -> Result<(u32, &str, &str), &[u8]>
    ensures { Answers (λ r. ((r.0, r.1.now), r.2.now)) result (readers.node_and_rest text.now) }
{
    let (node, behind) = argument(text)?;
    let (rest, left) = all_behind(behind)?;
    Ok((node, rest, left))
}

#[tactic(auto, unfolding(crate::specs::Command::insert_arguments))]
fn insert(text: &str) -> Result<(Command<'_>, &str), &[u8]>
    ensures { Answers (λ c. (command_of c.0, c.1.now)) result (readers.insert_arguments text.now) }
{
    let (parent, behind) = argument(text)?;
    let (index, behind) = argument(behind)?;
    let (rest, left) = all_behind(behind)?;
    let command = Command::Insert {
        parent,
        index,
        rest,
    };
    Ok((command, left))
}

#[tactic(auto, unfolding(crate::specs::Command::move_arguments))]
fn moved(text: &str) -> Result<(Command<'_>, &str), &[u8]>
    ensures { Answers (λ c. (command_of c.0, c.1.now)) result (readers.move_arguments text.now) }
{
    let (node, behind) = argument(text)?;
    let (parent, behind) = argument(behind)?;
    let (index, left) = argument(behind)?;
    let command = Command::Move {
        node,
        parent,
        index,
    };
    Ok((command, left))
}

#[tactic(auto, unfolding(crate::specs::Command::metric_arguments))]
fn metric(text: &str) -> Result<(Command<'_>, &str), &[u8]>
    ensures { Answers (λ c. (command_of c.0, c.1.now)) result (readers.metric_arguments text.now) }
{
    let (face, behind) = face_from(0, text)?;
    let (c, behind) = character(behind)?;
    let (upright, behind) = orientation(behind)?;
    let (value, left) = argument_within(0, GREATEST_ADVANCE, behind)?;
    let command = Command::Metric {
        face,
        c,
        upright,
        value,
    };
    Ok((command, left))
}

// The number of a face, from `least` on.
fn face_from(least: u32, text: &str) -> Result<(u8, &str), &[u8]>
    ensures { Answers (λ n. (n.0, n.1.now)) result (readers.argument_within least 7 text.now) }
{
    let (number, left) = argument_within(least, GREATEST_FACE, text)?;
    Ok((number as u8, left))
}

// An argument from `least` to `most`.
#[tactic(auto, unfolding(crate::specs::Command::argument_within))]
fn argument_within(least: u32, most: u32, text: &str) -> Result<(u32, &str), &[u8]>
    ensures read { Answers (λ n. (n.0, n.1.now)) result (readers.argument_within least most text.now) }
    ensures most { IfOk result (λ n. n.0 ≤ most) }
{
    let (number, left) = argument(text)?;
    if least <= number && number <= most {
        Ok((number, left))
    } else {
        Err(left.as_bytes())
    }
}

// A space and whether a character is set upright.
#[tactic(auto, unfolding(crate::specs::Command::orientations))]
fn orientation(text: &str) -> Result<(bool, &str), &[u8]>
    ensures { Answers (λ u. (u.0, u.1.now)) result (reading.one_word readers.orientations text.now) }
{
    one_word(&ORIENTATIONS, text)
}

// A character of the repertoire, by its code.
#[tactic(auto, unfolding(crate::specs::Command::character, reading::specs::Readers::after))]
fn character(text: &str) -> Result<(char, &str), &[u8]>
    ensures { Answers (λ c. (c.0, c.1.now)) result (readers.character text.now) }
{
    let digits = strip(" U+", text)?;
    let (code, left) = hexadecimal(digits)?;
    match char::from_u32(code) {
        None => Err(left.as_bytes()),
        Some(c) => {
            if in_repertoire(c) {
                Ok((c, left))
            } else {
                Err(left.as_bytes())
            }
        }
    }
}

// Four or five hexadecimal digits.
#[tactic(auto, unfolding(crate::specs::Command::hexadecimal))]
fn hexadecimal(text: &str) -> Result<(u32, &str), &[u8]>
    ensures { Answers (λ c. (c.0, c.1.now)) result (readers.hexadecimal text.now) }
{
    let (code, rest) = four_digits(text)?;
    if digit_ahead(rest) {
        let (digit, left) = hexadecimal_digit(rest)?;
        Ok((16 * code + digit, left))
    } else {
        Ok((code, rest))
    }
}

#[tactic(auto, unfolding(crate::specs::Command::four_digits))]
fn four_digits(text: &str) -> Result<(u32, &str), &[u8]>
    ensures read { Answers (λ c. (c.0, c.1.now)) result (readers.four_digits text.now) }
    ensures small { IfOk result (λ c. c.0 < 65536) }
{
    let (a, rest) = hexadecimal_digit(text)?;
    let (b, rest) = hexadecimal_digit(rest)?;
    let (c, rest) = hexadecimal_digit(rest)?;
    let (d, rest) = hexadecimal_digit(rest)?;
    Ok((16 * (16 * (16 * a + b) + c) + d, rest))
}

#[tactic(auto, unfolding(crate::specs::Command::hexadecimal_digit, reading::specs::Readers::one_of))]
fn hexadecimal_digit(text: &str) -> Result<(u32, &str), &[u8]>
    ensures read { Answers (λ d. (d.0, d.1.now)) result (readers.hexadecimal_digit text.now) }
    ensures small { IfOk result (λ d. d.0 < 16) }
{
    let Some((byte, after)) = first(text) else {
        return Err(text.as_bytes());
    };
    let digit = digit_value(byte);
    if digit < 16 {
        Ok((digit, after))
    } else {
        Err(text.as_bytes())
    }
}

fn digit_ahead(text: &str) -> bool
    ensures { result ≡ next_is readers.is_hexadecimal text.now }
{
    match text.as_bytes() {
        [] => false,
        [byte, ..] => digit_value(*byte) < 16,
    }
}

// The value of a digit or a letter, from 0 for `0` to 35 for `z`; 36 for all else.
fn digit_value(byte: u8) -> u32
    ensures { result ≡ digit_value byte }
{
    match char::from(byte).to_digit(36) {
        Some(value) => value,
        None => 36,
    }
}

#[tactic(auto, unfolding(html_tokens::specs::Characters::in_repertoire, wm_chars::specs::Repertoire::bidi_class))]
fn in_repertoire(c: char) -> bool
    ensures { result ≡ in_repertoire c }
{
    bidi_class(c).is_some()
}

// A space, and a number of one to seven digits.
#[tactic(auto, unfolding(crate::specs::Command::argument, reading::specs::Readers::after))]
fn argument(text: &str) -> Result<(u32, &str), &[u8]>
    ensures { Answers (λ n. (n.0, n.1.now)) result (readers.argument text.now) }
{
    let digits = strip(" ", text)?;
    let number = decimal(7, digits)?;
    Ok(number)
}

// All that stands behind a space; where nothing stands there, the space may be missing.
#[tactic(auto, unfolding(crate::specs::Command::rest, reading::specs::Readers::after))]
fn all_behind(text: &str) -> Result<(&str, &str), &[u8]>
    ensures { Answers (λ r. (r.0.now, r.1.now)) result (readers.rest text.now) }
{
    if text.is_empty() {
        return Ok(("", text));
    }
    let rest = strip(" ", text)?;
    Ok((rest, ""))
}

// The end of the line.
fn nothing(text: &str) -> Result<(), &[u8]>
    ensures { Answers (λ _. (tt, [])) result (readers.nothing text.now) }
{
    if text.is_empty() {
        Ok(())
    } else {
        Err(text.as_bytes())
    }
}
