//! The table of the repertoire, which the definitions cite and docs/PROFILE/characters.md explains: a row for
//! each range of characters that share their classes, in the order of their code points.

use crate::classes::BidiClass::{
    AL, AN, B, CS, EN, ES, ET, FSI, L, LRE, LRI, LRO, NSM, ON, PDF, PDI, R, RLE, RLI, RLO, S, WS,
};
use crate::classes::BreakClass::{Close, Control, Glue, Ideographic, Open, Other, Space};
use crate::classes::Orient::{R as Turned, V as Upright};
use crate::classes::{BidiClass, BreakClass, Orient};

// The characters from the first to the last.
#[derive(Clone, Copy)]
pub(crate) struct Row {
    pub(crate) first: char,
    pub(crate) last: char,
    pub(crate) class: BidiClass,
    pub(crate) orient: Orient,
    pub(crate) breaks: BreakClass,
}

// A row in one line of the table. A call of a constant function would read the same, but the value of a
// static may not have a call.
macro_rules! row {
    ($first:literal, $last:literal, $class:expr, $orient:expr, $breaks:expr) => {
        Row { first: $first, last: $last, class: $class, orient: $orient, breaks: $breaks }
    };
}

pub(crate) static ROWS: [Row; 98] = [
    // White space and ASCII.
    row!('\u{0009}', '\u{0009}', S, Turned, Space),
    row!('\u{000A}', '\u{000A}', B, Turned, Space),
    row!('\u{000C}', '\u{000C}', WS, Turned, Space),
    row!('\u{000D}', '\u{000D}', B, Turned, Space),
    row!('\u{0020}', '\u{0020}', WS, Turned, Space),
    row!('!', '!', ON, Turned, Close),
    row!('"', '"', ON, Turned, Other),
    row!('#', '%', ET, Turned, Other),
    row!('&', '\'', ON, Turned, Other),
    row!('(', '(', ON, Turned, Open),
    row!(')', ')', ON, Turned, Close),
    row!('*', '*', ON, Turned, Other),
    row!('+', '+', ES, Turned, Other),
    row!(',', ',', CS, Turned, Close),
    row!('-', '-', ES, Turned, Other),
    row!('.', '.', CS, Turned, Close),
    row!('/', '/', CS, Turned, Other),
    row!('0', '9', EN, Turned, Other),
    row!(':', ':', CS, Turned, Close),
    row!(';', ';', ON, Turned, Close),
    row!('<', '>', ON, Turned, Other),
    row!('?', '?', ON, Turned, Close),
    row!('@', '@', ON, Turned, Other),
    row!('A', 'Z', L, Turned, Other),
    row!('[', '[', ON, Turned, Open),
    row!('\\', '\\', ON, Turned, Other),
    row!(']', ']', ON, Turned, Close),
    row!('^', '`', ON, Turned, Other),
    row!('a', 'z', L, Turned, Other),
    row!('{', '{', ON, Turned, Open),
    row!('|', '|', ON, Turned, Other),
    row!('}', '}', ON, Turned, Close),
    row!('~', '~', ON, Turned, Other),
    // Latin-1 and Latin Extended-A: no-break space, angle quotation marks, letters.
    row!('\u{00A0}', '\u{00A0}', CS, Turned, Glue),
    row!('\u{00AB}', '\u{00AB}', ON, Turned, Other),
    row!('\u{00BB}', '\u{00BB}', ON, Turned, Other),
    row!('\u{00C0}', '\u{00D6}', L, Turned, Other),
    row!('\u{00D8}', '\u{00F6}', L, Turned, Other),
    row!('\u{00F8}', '\u{017F}', L, Turned, Other),
    // Combining marks.
    row!('\u{0300}', '\u{036F}', NSM, Turned, Other),
    // Greek.
    row!('\u{0391}', '\u{03A1}', L, Turned, Other),
    row!('\u{03A3}', '\u{03A9}', L, Turned, Other),
    row!('\u{03B1}', '\u{03C9}', L, Turned, Other),
    // Cyrillic.
    row!('\u{0401}', '\u{0401}', L, Turned, Other),
    row!('\u{0410}', '\u{044F}', L, Turned, Other),
    row!('\u{0451}', '\u{0451}', L, Turned, Other),
    // Hebrew.
    row!('\u{05D0}', '\u{05EA}', R, Turned, Other),
    // Arabic.
    row!('\u{060C}', '\u{060C}', CS, Turned, Close),
    row!('\u{061C}', '\u{061C}', AL, Turned, Control),
    row!('\u{061F}', '\u{061F}', AL, Turned, Close),
    row!('\u{0621}', '\u{063A}', AL, Turned, Other),
    row!('\u{0641}', '\u{064A}', AL, Turned, Other),
    row!('\u{0660}', '\u{0669}', AN, Turned, Other),
    row!('\u{06F0}', '\u{06F9}', EN, Turned, Other),
    // General punctuation, and the controls of UAX 9 among it.
    row!('\u{200E}', '\u{200E}', L, Turned, Control),
    row!('\u{200F}', '\u{200F}', R, Turned, Control),
    row!('\u{2010}', '\u{2010}', ON, Turned, Other),
    row!('\u{2013}', '\u{2014}', ON, Turned, Other),
    row!('\u{2018}', '\u{2019}', ON, Turned, Other),
    row!('\u{201C}', '\u{201D}', ON, Turned, Other),
    row!('\u{2026}', '\u{2026}', ON, Turned, Other),
    row!('\u{202A}', '\u{202A}', LRE, Turned, Control),
    row!('\u{202B}', '\u{202B}', RLE, Turned, Control),
    row!('\u{202C}', '\u{202C}', PDF, Turned, Control),
    row!('\u{202D}', '\u{202D}', LRO, Turned, Control),
    row!('\u{202E}', '\u{202E}', RLO, Turned, Control),
    row!('\u{2066}', '\u{2066}', LRI, Turned, Control),
    row!('\u{2067}', '\u{2067}', RLI, Turned, Control),
    row!('\u{2068}', '\u{2068}', FSI, Turned, Control),
    row!('\u{2069}', '\u{2069}', PDI, Turned, Control),
    // Ideographic space, punctuation and brackets.
    row!('\u{3000}', '\u{3000}', WS, Upright, Ideographic),
    row!('\u{3001}', '\u{3002}', ON, Upright, Close),
    row!('\u{3008}', '\u{3008}', ON, Upright, Open),
    row!('\u{3009}', '\u{3009}', ON, Upright, Close),
    row!('\u{300A}', '\u{300A}', ON, Upright, Open),
    row!('\u{300B}', '\u{300B}', ON, Upright, Close),
    row!('\u{300C}', '\u{300C}', ON, Upright, Open),
    row!('\u{300D}', '\u{300D}', ON, Upright, Close),
    row!('\u{300E}', '\u{300E}', ON, Upright, Open),
    row!('\u{300F}', '\u{300F}', ON, Upright, Close),
    row!('\u{3010}', '\u{3010}', ON, Upright, Open),
    row!('\u{3011}', '\u{3011}', ON, Upright, Close),
    // Kana.
    row!('\u{3041}', '\u{3096}', L, Upright, Ideographic),
    row!('\u{30A1}', '\u{30FA}', L, Upright, Ideographic),
    row!('\u{30FC}', '\u{30FC}', L, Upright, Ideographic),
    // Han, Hangul.
    row!('\u{4E00}', '\u{9FFF}', L, Upright, Ideographic),
    row!('\u{AC00}', '\u{D7A3}', L, Upright, Ideographic),
    // Fullwidth forms.
    row!('\u{FF01}', '\u{FF01}', ON, Upright, Close),
    row!('\u{FF08}', '\u{FF08}', ON, Upright, Open),
    row!('\u{FF09}', '\u{FF09}', ON, Upright, Close),
    row!('\u{FF0C}', '\u{FF0C}', CS, Upright, Close),
    row!('\u{FF0E}', '\u{FF0E}', CS, Upright, Close),
    row!('\u{FF10}', '\u{FF19}', EN, Upright, Ideographic),
    row!('\u{FF1A}', '\u{FF1A}', CS, Upright, Close),
    row!('\u{FF1B}', '\u{FF1B}', ON, Upright, Close),
    row!('\u{FF1F}', '\u{FF1F}', ON, Upright, Close),
    row!('\u{FF21}', '\u{FF3A}', L, Upright, Ideographic),
    row!('\u{FF41}', '\u{FF5A}', L, Upright, Ideographic),
];

// How many rows end before each of the first 128 blocks of 16 characters.
pub(crate) static ROWS_BEFORE_BLOCK: [u8; 128] = [
    0, 4, 4, 17, 22, 23, 27, 28, 33, 33, 33, 35, 36, 36, 37, 37, 38, 38, 38, 38, 38, 38, 38, 38,
    39, 39, 39, 39, 39, 39, 39, 39, 39, 39, 39, 39, 39, 39, 39, 39, 39, 39, 39, 39, 39, 39, 39, 39,
    39, 39, 39, 39, 39, 39, 39, 40, 40, 40, 40, 42, 42, 43, 43, 43, 43, 44, 44, 44, 44, 45, 46, 46,
    46, 46, 46, 46, 46, 46, 46, 46, 46, 46, 46, 46, 46, 46, 46, 46, 46, 46, 46, 46, 46, 46, 46, 47,
    47, 48, 50, 50, 51, 52, 52, 53, 53, 53, 53, 53, 53, 53, 53, 53, 54, 54, 54, 54, 54, 54, 54, 54,
    54, 54, 54, 54, 54, 54, 54, 54,
];

// How many rows end before each of the first 128 characters.
pub(crate) static ROWS_BEFORE_ASCII: [u8; 128] = [
    0, 0, 0, 0, 0, 0, 0, 0, 0, 0, 1, 2, 2, 3, 4, 4, 4, 4, 4, 4, 4, 4, 4, 4, 4, 4, 4, 4, 4, 4, 4, 4,
    4, 5, 6, 7, 7, 7, 8, 8, 9, 10, 11, 12, 13, 14, 15, 16, 17, 17, 17, 17, 17, 17, 17, 17, 17, 17,
    18, 19, 20, 20, 20, 21, 22, 23, 23, 23, 23, 23, 23, 23, 23, 23, 23, 23, 23, 23, 23, 23, 23, 23,
    23, 23, 23, 23, 23, 23, 23, 23, 23, 24, 25, 26, 27, 27, 27, 28, 28, 28, 28, 28, 28, 28, 28, 28,
    28, 28, 28, 28, 28, 28, 28, 28, 28, 28, 28, 28, 28, 28, 28, 28, 28, 29, 30, 31, 32, 33,
];

// The bidi class of each character from the space to the tilde, as its row has it.
pub(crate) static PRINTABLE_CLASSES: [BidiClass; 95] = [
    WS, ON, ON, ET, ET, ET, ON, ON, ON, ON, ON, ES, CS, ES, CS, CS, EN, EN, EN, EN, EN, EN, EN, EN,
    EN, EN, CS, ON, ON, ON, ON, ON, ON, L, L, L, L, L, L, L, L, L, L, L, L, L, L, L, L, L, L, L, L,
    L, L, L, L, L, L, ON, ON, ON, ON, ON, ON, L, L, L, L, L, L, L, L, L, L, L, L, L, L, L, L, L, L,
    L, L, L, L, L, L, L, L, ON, ON, ON, ON,
];

// The break class of each character from the space to the tilde, as its row has it.
pub(crate) static PRINTABLE_BREAKS: [BreakClass; 95] = [
    Space, Close, Other, Other, Other, Other, Other, Other, Open, Close, Other, Other, Close,
    Other, Close, Other, Other, Other, Other, Other, Other, Other, Other, Other, Other, Other,
    Close, Close, Other, Other, Other, Close, Other, Other, Other, Other, Other, Other, Other,
    Other, Other, Other, Other, Other, Other, Other, Other, Other, Other, Other, Other, Other,
    Other, Other, Other, Other, Other, Other, Other, Open, Other, Close, Other, Other, Other,
    Other, Other, Other, Other, Other, Other, Other, Other, Other, Other, Other, Other, Other,
    Other, Other, Other, Other, Other, Other, Other, Other, Other, Other, Other, Other, Other,
    Open, Other, Close, Other,
];

// The bidi class of each character from U+202A to U+202E, as its row has it.
pub(crate) static EMBEDDING_CLASSES: [BidiClass; 5] = [LRE, RLE, PDF, LRO, RLO];

// The bidi class of each character from U+2066 to U+2069, as its row has it.
pub(crate) static ISOLATE_CLASSES: [BidiClass; 4] = [LRI, RLI, FSI, PDI];

// How many rows end before Kana, from U+3041 on.
pub(crate) const ROWS_BEFORE_KANA: usize = 82;

// How many rows end before Han, from U+4E00 on.
pub(crate) const ROWS_BEFORE_HAN: usize = 85;
