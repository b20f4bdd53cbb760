//! How numbers, names and code points are written in a listing.

ghost use Rattle.std.specs.Prelude.{◌≡◌, ◌+◌, ◌%◌, ◌<◌, ◌≤◌, ◌^◌, ◌++◌, ◌∷◌, true, length};
ghost use Rattle.std.specs.Fmt.{digit_glyph};
ghost use Rattle.listing.specs.Words as spec;

use arrayvec::{ArrayString, ArrayVec};
use fragment_types::BoxName;
use itoa::Buffer;
use wm_modes::Rect;

/// Room for the longest line, but for the characters of a run: three words and eight numbers of at most twenty characters.
pub(crate) type Line = ArrayString<192>;

/// A sign and a code point.
pub(crate) type Character = ArrayVec<u8, 7>;

/// A length.
#[tactic(auto, unfolding(crate::specs::Words::word))]
pub(crate) fn push_number(line: &mut Line, number: i64)
    requires { length line.old.bytes ≤ 171 }
    ensures bytes { line.new.bytes ≡ line.old.bytes ++ spec.word number }
    ensures longer { length line.new.bytes ≤ length line.old.bytes + 21 }
{
    line.push_str(" ");
    line.push_str(Buffer::new().format(number));
}

/// A number from 0.
#[tactic(auto, unfolding(crate::specs::Words::count))]
pub(crate) fn push_count(line: &mut Line, number: usize)
    requires { length line.old.bytes ≤ 171 }
    ensures bytes { line.new.bytes ≡ line.old.bytes ++ spec.count number }
    ensures longer { length line.new.bytes ≤ length line.old.bytes + 21 }
{
    line.push_str(" ");
    line.push_str(Buffer::new().format(number));
}

/// The number of a node.
#[tactic(auto, unfolding(crate::specs::Words::count))]
pub(crate) fn push_node(line: &mut Line, node: u32)
    requires { length line.old.bytes ≤ 171 }
    ensures bytes { line.new.bytes ≡ line.old.bytes ++ spec.count node }
    ensures longer { length line.new.bytes ≤ length line.old.bytes + 11 }
{
    line.push_str(" ");
    line.push_str(Buffer::new().format(node));
}

/// The node, and which of its boxes.
#[tactic(auto, unfolding(crate::specs::Words::name_words))]
pub(crate) fn push_name(line: &mut Line, name: BoxName)
    requires { length line.old.bytes ≤ 150 }
    ensures bytes { line.new.bytes ≡ line.old.bytes ++ spec.name_words name }
    ensures longer { length line.new.bytes ≤ length line.old.bytes + 32 }
{
    push_node(line, name.node);
    push_count(line, name.ordinal);
}

/// Left and top edge, width and height.
#[tactic(auto, unfolding(crate::specs::Words::rect_words))]
pub(crate) fn push_rect(line: &mut Line, rect: &Rect)
    requires { length line.old.bytes ≤ 108 }
    ensures bytes { line.new.bytes ≡ line.old.bytes ++ spec.rect_words rect.now }
    ensures longer { length line.new.bytes ≤ length line.old.bytes + 84 }
{
    push_pair(line, rect.x, rect.y);
    push_pair(line, rect.w, rect.h);
}

/// Two lengths.
#[tactic(auto, unfolding(crate::specs::Words::pair))]
pub(crate) fn push_pair(line: &mut Line, first: i64, second: i64)
    requires { length line.old.bytes ≤ 150 }
    ensures bytes { line.new.bytes ≡ line.old.bytes ++ spec.pair first second }
    ensures longer { length line.new.bytes ≤ length line.old.bytes + 42 }
{
    push_number(line, first);
    push_number(line, second);
}

/// A code point of at most four digits behind a sign, as `character` writes it.
#[inline(always)]
pub(crate) fn short_character(sign: u8, c: u32) -> [u8; 5]
    requires { c < 65536 }
    ensures { result ≡ sign ∷ spec.code_point c }
{
    [
        sign,
        digit(c / 0x1000),
        digit(c / 0x100),
        digit(c / 0x10),
        digit(c),
    ]
}

/// A code point behind a sign: hexadecimal in upper case, by four digits at least.
pub(crate) fn character(sign: u8, c: char) -> Character
    ensures { result.items ≡ sign ∷ spec.code_point c }
{
    let c = u32::from(c);
    let mut text = Character::new();
    text.push(sign);
    push_high(&mut text, c, 0x10_0000);
    push_high(&mut text, c, 0x1_0000);
    push_four(&mut text, c);
    text
}

// The digit of this place, where the number reaches it.
fn push_high(text: &mut Character, c: u32, place: u32)
    requires room { length text.old.items ≤ 6 }
    requires some { 0 < place }
    ensures items { text.new.items ≡ text.old.items ++ spec.high_digit place c }
    ensures longer { length text.new.items ≤ length text.old.items + 1 }
{
    if c >= place {
        text.push(digit(c / place));
    }
}

// The last four digits.
fn push_four(text: &mut Character, c: u32)
    requires { length text.old.items ≤ 3 }
    ensures { text.new.items ≡ text.old.items ++ spec.four_digits c }
{
    text.push(digit(c / 0x1000));
    text.push(digit(c / 0x100));
    text.push(digit(c / 0x10));
    text.push(digit(c));
}

// The hexadecimal digits in upper case.
const DIGITS: [u8; 16] = *b"0123456789ABCDEF";

// The last hexadecimal digit of a number.
#[inline(always)]
fn digit(number: u32) -> u8
    ensures { result ≡ digit_glyph true (number % 16) }
{
    DIGITS[(number % 16) as usize]
}
