//! What the texts of a command line stand for.

ghost use Rattle.std.specs.Prelude.{◌≡◌, ◌*◌, ◌≤◌, bytes_eq, pos};
ghost use Rattle.wm_units.specs.Numbers as numbers;
ghost use Rattle.command_line.specs.Reading as readings;

use crate::job::Command;
use reading::decimal;
use wm_units::fixed;

/// The commands with their words.
pub(crate) static COMMANDS: [(&str, Command); 5] = [
    ("layout", Command::Layout),
    ("edit", Command::Edit),
    ("modes", Command::Modes),
    ("gen", Command::Gen),
    ("probe", Command::Probe),
];

/// The greatest size of the view on either axis, in pixels.
const MOST_PIXELS: u32 = 16_384;

/// The view where the words give no sizes, in pixels.
const DEFAULT_INLINE: u32 = 800;

const DEFAULT_BLOCK: u32 = 600;

/// The greatest count, and the count where the words give none.
const MOST_COUNT: u32 = 1_000;

const DEFAULT_COUNT: u32 = 100;

/// The command that is named.
pub(crate) fn command_of(name: Option<&str>) -> Option<Command>
    ensures { result ≡ readings.named (readings.text_of name.entry) }
{
    match name {
        None => None,
        Some(name) => command_named(name),
    }
}

fn command_named(name: &str) -> Option<Command>
    ensures { result ≡ readings.command_of name.now }
{
    command_in(&COMMANDS, name)
}

// The command of the row that has this word.
fn command_in(table: &[(&str, Command)], name: &str) -> Option<Command>
    ensures { result ≡ readings.command_in table.now name.now }
{
    let row = table.iter().find(
        |row| -> bool
            ensures { result ≡ bytes_eq row.now.now.0.now name.entry.now }
        { row.0 == name },
    )?;
    Some(row.1)
}

/// The view's size on the root's inline axis, in units of 1/64 px.
pub(crate) fn inline_of(text: Option<&str>) -> Option<i64>
    ensures { result ≡ readings.inline_of (readings.text_of text.entry) }
{
    match text {
        None => Some(pixels(DEFAULT_INLINE)),
        Some(text) => size_of(text),
    }
}

/// The view's size on the root's block axis, in units of 1/64 px.
pub(crate) fn block_of(text: Option<&str>) -> Option<i64>
    ensures { result ≡ readings.block_of (readings.text_of text.entry) }
{
    match text {
        None => Some(pixels(DEFAULT_BLOCK)),
        Some(text) => size_of(text),
    }
}

/// How many paragraphs the generated input has.
pub(crate) fn count_of(text: Option<&str>) -> Option<u32>
    ensures { result ≡ readings.count_of (readings.text_of text.entry) }
{
    match text {
        None => Some(DEFAULT_COUNT),
        Some(text) => number_to(MOST_COUNT, text),
    }
}

fn size_of(text: &str) -> Option<i64>
    ensures { result ≡ readings.size_of text.now }
{
    let size = number_to(MOST_PIXELS, text)?;
    Some(pixels(size))
}

// A number from 1 to `most`, of one to five digits.
fn number_to(most: u32, text: &str) -> Option<u32>
    ensures { result ≡ readings.number_to most text.now }
{
    match decimal(5, text) {
        Ok((number, rest)) => within(most, number, rest),
        Err(_) => None,
    }
}

fn within(most: u32, number: u32, rest: &str) -> Option<u32>
    ensures { result ≡ readings.within most number rest.now }
{
    if rest.is_empty() && 1 <= number && number <= most {
        Some(number)
    } else {
        None
    }
}

// Whole pixels in units of 1/64 px.
fn pixels(count: u32) -> i64
    requires { count ≤ 16384 }
    ensures { result ≡ numbers.fixed (pos (100 * count)) }
{
    fixed(100 * i64::from(count))
}
