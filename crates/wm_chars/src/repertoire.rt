//! What the table of the repertoire says of a character: bidi class (UAX 9, table 4), orientation (UAX 50), break class.

ghost use Rattle.std.specs.List.{AllWithin};
ghost use Rattle.std.specs.Prelude.{◌≡◌, ◌<◌, ltb};
ghost use Rattle.wm_chars.specs.Repertoire as repertoire;
ghost use Rattle.wm_chars.specs.declared.rows.TheConstants.{ROWS};

use crate::classes::{BidiClass, BreakClass, Orient};
use crate::ranges::is_ideograph;
use crate::rows::{
    EMBEDDING_CLASSES, ISOLATE_CLASSES, PRINTABLE_BREAKS, PRINTABLE_CLASSES, ROWS,
    ROWS_BEFORE_ASCII, ROWS_BEFORE_BLOCK, ROWS_BEFORE_HAN, ROWS_BEFORE_KANA, Row,
};

/// The bidi class of a character (UAX 9, table 4), or None exactly where it isn't in the repertoire.
#[inline(always)]
pub fn bidi_class(c: char) -> Option<BidiClass>
    ensures { result ≡ repertoire.bidi_class c }
{
    if ' ' <= c && c <= '~' {
        return Some(PRINTABLE_CLASSES[c as usize - 0x20]);
    }
    if is_ideograph(c) {
        return Some(BidiClass::L);
    }
    further_class(c)
}

// The bidi class of a character, by ranges where most characters of a script share it.
#[inline(never)]
fn further_class(c: char) -> Option<BidiClass>
    ensures { result ≡ repertoire.bidi_class c }
{
    if c < '\u{05D0}' {
        return class_before_hebrew(c);
    }
    if c < '\u{202A}' {
        return class_from_hebrew(c);
    }
    if c < '\u{3000}' {
        return class_from_formatting(c);
    }
    class_from_u_3000(c)
}

// The bidi class of a character before Hebrew. The combining marks are one row.
#[inline(always)]
fn class_before_hebrew(c: char) -> Option<BidiClass>
    ensures { result ≡ repertoire.bidi_class c }
{
    if '\u{0300}' <= c && c <= '\u{036F}' {
        return Some(BidiClass::NSM);
    }
    class_in_rows(c)
}

// The bidi class of a character from Hebrew on. The letters of Hebrew and Arabic are three rows.
#[inline(always)]
fn class_from_hebrew(c: char) -> Option<BidiClass>
    ensures { result ≡ repertoire.bidi_class c }
{
    if '\u{05D0}' <= c && c <= '\u{05EA}' {
        return Some(BidiClass::R);
    }
    if '\u{0621}' <= c && c <= '\u{063A}' {
        return Some(BidiClass::AL);
    }
    if '\u{0641}' <= c && c <= '\u{064A}' {
        return Some(BidiClass::AL);
    }
    class_in_rows(c)
}

// The bidi class of a character from the explicit formatting characters on (UAX 9, 2.1 to 2.5).
#[inline(always)]
fn class_from_formatting(c: char) -> Option<BidiClass>
    ensures { result ≡ repertoire.bidi_class c }
{
    if '\u{2066}' <= c && c <= '\u{2069}' {
        return Some(ISOLATE_CLASSES[c as usize - 0x2066]);
    }
    if '\u{202A}' <= c && c <= '\u{202E}' {
        return Some(EMBEDDING_CLASSES[c as usize - 0x202A]);
    }
    class_in_rows(c)
}

// The bidi class of a character from U+3000 on. The commonest of the punctuation of CJK are neutral.
#[inline(always)]
fn class_from_u_3000(c: char) -> Option<BidiClass>
    ensures { result ≡ repertoire.bidi_class c }
{
    if '\u{3001}' <= c && c <= '\u{3002}' {
        return Some(BidiClass::ON);
    }
    if '\u{3008}' <= c && c <= '\u{3011}' {
        return Some(BidiClass::ON);
    }
    class_in_rows(c)
}

// The bidi class of a character by the row in which it stands.
#[inline(never)]
#[tactic(auto, unfolding(crate::specs::Repertoire::bidi_class))]
fn class_in_rows(c: char) -> Option<BidiClass>
    ensures { result ≡ repertoire.bidi_class c }
{
    row_of(c).map(|row| row.class)
}

/// The orientation of a character in a vertical line (UAX 50), or None exactly where it isn't in the
/// repertoire.
#[tactic(auto, unfolding(crate::specs::Repertoire::orientation))]
pub fn orientation(c: char) -> Option<Orient>
    ensures { result ≡ repertoire.orientation c }
{
    row_of(c).map(|row| row.orient)
}

/// What a character means for the places where a line may end, or None exactly where it isn't in the
/// repertoire.
#[inline(always)]
pub fn break_class(c: char) -> Option<BreakClass>
    ensures { result ≡ repertoire.break_class c }
{
    if ' ' <= c && c <= '~' {
        return Some(PRINTABLE_BREAKS[c as usize - 0x20]);
    }
    if is_ideograph(c) {
        return Some(BreakClass::Ideographic);
    }
    break_in_rows(c)
}

// The break class of a character by the row in which it stands.
#[inline(never)]
#[tactic(auto, unfolding(crate::specs::Repertoire::break_class))]
fn break_in_rows(c: char) -> Option<BreakClass>
    ensures { result ≡ repertoire.break_class c }
{
    row_of(c).map(|row| row.breaks)
}

// The row in which a character stands. Since the rows ascend, no row but the first that doesn't end before
// the character can have it.
#[inline(always)]
fn row_of(c: char) -> Option<Row>
    ensures { result ≡ repertoire.row_of c }
{
    let row = *ROWS.get(rows_before(c))?;
    if row.first <= c { Some(row) } else { None }
}

// How many rows end before the character. In ASCII the search begins with the character's own row, in the blocks
// up to Arabic with the block's own rows, and in Kana, Han and Hangul with those of their scripts.
#[inline(always)]
fn rows_before(c: char) -> usize
    ensures { repertoire.DividesAt c result }
{
    let code = c as usize;
    if code < ROWS_BEFORE_ASCII.len() {
        return rows_before_from(usize::from(ROWS_BEFORE_ASCII[code]), c);
    }
    let block = code / 16;
    if block < ROWS_BEFORE_BLOCK.len() {
        return rows_before_from(usize::from(ROWS_BEFORE_BLOCK[block]), c);
    }
    rows_before_past_blocks(c)
}

// How many rows end before a character from U+0800 on. In Kana, Han and Hangul the search begins with the rows of
// their scripts.
#[inline(always)]
fn rows_before_past_blocks(c: char) -> usize
    ensures { repertoire.DividesAt c result }
{
    if '\u{4E00}' <= c && c <= '\u{D7A3}' {
        return rows_before_from(ROWS_BEFORE_HAN, c);
    }
    if '\u{3041}' <= c && c <= '\u{30FF}' {
        return rows_before_from(ROWS_BEFORE_KANA, c);
    }
    rows_before_by_halves(c)
}

// How many rows end before the character, by a search row by row, where it is known that these many do.
#[inline(always)]
fn rows_before_from(known: usize, c: char) -> usize
    requires { AllWithin (λ row. row.last < c) ROWS 0 known }
    ensures { repertoire.DividesAt c result }
{
    for i in known..ROWS.len() {
        if c <= ROWS[i].last {
            return i;
        }
    }
    ROWS.len()
}

// How many rows end before the character, by a search by halves.
#[inline(never)]
fn rows_before_by_halves(c: char) -> usize
    ensures { repertoire.DividesAt c result }
{
    ROWS.partition_point(
        |row: &Row| -> bool
            ensures { result ≡ ltb row.now.last c }
        { row.last < c },
    )
}
