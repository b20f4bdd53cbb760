//! Brackets (UAX 9, 3.1.3) and mirrors (UAX 9, rule L4), by two tables of pairs.

ghost use Rattle.std.specs.Prelude.{◌≡◌, ◌||◌, eqb};
ghost use Rattle.wm_chars.specs.Pairs as pairs;

use crate::classes::Bracket;

#[derive(Clone, Copy)]
struct Pair {
    opening: char,
    closing: char,
}

// A pair in one line of a table.
macro_rules! pair {
    ($opening:literal, $closing:literal) => {
        Pair { opening: $opening, closing: $closing }
    };
}

static BRACKETS: [Pair; 9] = [
    pair!('(', ')'),
    pair!('[', ']'),
    pair!('{', '}'),
    pair!('\u{3008}', '\u{3009}'),
    pair!('\u{300A}', '\u{300B}'),
    pair!('\u{300C}', '\u{300D}'),
    pair!('\u{300E}', '\u{300F}'),
    pair!('\u{3010}', '\u{3011}'),
    pair!('\u{FF08}', '\u{FF09}'),
];

// Pairs that are mirrors of each other and no brackets.
static FURTHER_MIRRORS: [Pair; 2] = [pair!('<', '>'), pair!('\u{00AB}', '\u{00BB}')];

/// What a character is as a bracket, or None exactly where it is none (UAX 9, 3.1.3).
#[tactic(auto, unfolding(crate::specs::Pairs::bracket))]
pub fn bracket(c: char) -> Option<Bracket>
    ensures { result ≡ pairs.bracket c }
{
    side_in(&BRACKETS, c)
}

/// The character that stands for this one where the text runs from right to left, or None exactly where it
/// has none (UAX 9, rule L4). The other side of each pair of brackets is the mirror of the one.
#[tactic(auto, unfolding(crate::specs::Pairs::mirror))]
pub fn mirror(c: char) -> Option<char>
    ensures { result ≡ pairs.mirror c }
{
    match side_in(&BRACKETS, c) {
        Some(side) => Some(side.partner),
        None => side_in(&FURTHER_MIRRORS, c).map(|side| side.partner),
    }
}

// What the character is in the pair that has it, if one has it.
fn side_in(table: &[Pair], c: char) -> Option<Bracket>
    ensures { result ≡ pairs.side_in table.now c }
{
    let pair = table.iter().find(
        |pair| -> bool
            ensures { result ≡ (eqb pair.now.now.opening c || eqb pair.now.now.closing c) }
        { pair.opening == c || pair.closing == c },
    )?;
    Some(side_of(*pair, c))
}

fn side_of(pair: Pair, c: char) -> Bracket
    ensures { result ≡ pairs.side_of c pair }
{
    if pair.opening == c {
        Bracket {
            opens: true,
            partner: pair.closing,
        }
    } else {
        Bracket {
            opens: false,
            partner: pair.opening,
        }
    }
}
