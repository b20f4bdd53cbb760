//! The levels at the ends of a line and of its segments (UAX 9, 3.4, L1).

ghost use Rattle.std.specs.Prelude.{◌≡◌, ◌==◌, ◌||◌, ◌&&◌, cond, length};
ghost use Rattle.std.specs.List.{list_all};
ghost use Rattle.bidi_order.specs.Blanks.{separates, is_blank, reset};

use wm_chars::BidiClass;
use wm_chars::BidiClass::{
    AL, AN, B, CS, EN, ES, ET, FSI, L, LRE, LRI, LRO, NSM, ON, PDF, PDI, R, RLE, RLI, RLO, S, WS,
};

/// Gives the base level to separators, and to blanks before a separator or before the line's end (UAX 9, L1).
/// The levels and the classes are those of one line, one of each for a character; the classes are those that the
/// characters had before any rule. It takes no memory.
#[tactic(auto, using(crate::proofs::BaseLine::stay))]
pub fn reset(levels: &mut [u8], classes: &[BidiClass], base: u8)
    requires { length levels.old ≡ length classes.now }
    ensures { levels.new ≡ reset base levels.old classes.now }
{
    if !have_level(levels, base) {
        reset_ends(levels, classes, base);
    }
}

/// Whether each of these levels is that one.
pub(crate) fn have_level(levels: &[u8], level: u8) -> bool
    ensures { result ≡ list_all (λ own. own == level) levels.now }
{
    levels.iter().all(
        |own| -> bool
            ensures { result ≡ (own.now == level) }
        { *own == level },
    )
}

// Gives the base level to separators, and to blanks before a separator or before the line's end (UAX 9, L1), whatever
// the levels are.
#[tactic(auto, unfolding(crate::specs::Blanks::reset))]
fn reset_ends(levels: &mut [u8], classes: &[BidiClass], base: u8)
    requires { length levels.old ≡ length classes.now }
    ensures { levels.new ≡ reset base levels.old classes.now }
{
    let mut leads_out = true;
    let mut i = levels.len();
    while i > 0 {
        i -= 1;
        leads_out = leads_out_before(classes[i], leads_out);
        levels[i] = reset_level(leads_out, base, levels[i]);
    }
}

// Whether nothing but blanks stands from this character to the next separator or the end, if that is so behind it.
fn leads_out_before(class: BidiClass, behind: bool) -> bool
    ensures { result ≡ (separates class || (is_blank class && behind)) }
{
    match class {
        B | S => true,
        WS | LRE | RLE | LRO | RLO | PDF | LRI | RLI | FSI | PDI => behind,
        L | R | AL | EN | ES | ET | AN | CS | NSM | ON => false,
    }
}

fn reset_level(leads_out: bool, base: u8, level: u8) -> u8
    ensures { result ≡ cond leads_out base level }
{
    if leads_out { base } else { level }
}
