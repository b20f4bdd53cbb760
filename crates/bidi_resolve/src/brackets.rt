//! Paired brackets in one isolating run sequence (UAX 9, 3.3.5, N0).

ghost use Rattle.bidi_resolve.specs.Brackets as brackets;
ghost use Rattle.bidi_resolve.specs.Pairing as readings;
ghost use Rattle.bidi_resolve.specs.Pairing.{IsWithin, reading_of};
ghost use Rattle.bidi_resolve.specs.Isolating.{chars_in, originals_in};
ghost use Rattle.wm_chars.specs.declared.classes.BidiClass.{BidiClass};
ghost use Rattle.std.specs.List.{list_any, slice_range};
ghost use Rattle.std.specs.Prelude.{◌≡◌, ◌+◌, ◌<◌, ◌≤◌, All, IfOk, IfSome, length, take};

use crate::isolating::Sequence;
use crate::neutral::{direction, n1_after};
use crate::pairing::{Pairing, read_pairs};
use std::alloc::AllocError;
use wm_chars::BidiClass;
use wm_chars::BidiClass::{AN, EN, L, NSM, ON, R};

/// N0: the two brackets of a pair take one direction.
#[tactic(auto, using(crate::proofs::Unchanged::n0_same))]
pub(crate) fn n0(
    pairing: &mut Pairing,
    classes: &mut [BidiClass],
    sequence: &Sequence,
) -> Result<(), AllocError>
    requires { length sequence.now.places.now ≡ length classes.old }
    ensures { IfOk result (λ _. classes.new ≡ brackets.n0 sequence.now.frame.level sequence.now.frame.sos (chars_in sequence.now) (originals_in sequence.now) classes.old) }
{
    if has_bracket_class(classes) {
        pairs_become(pairing, classes, sequence)?;
    }
    Ok(())
}

// Whether a character is a neutral of the class that brackets have.
#[inline(never)]
fn has_bracket_class(classes: &[BidiClass]) -> bool
    ensures { result ≡ list_any brackets.may_be_bracket classes.now }
{
    let mut has = false;
    for class in classes {
        has |= *class == ON;
    }
    has
}

// Identifies the bracket pairs of a sequence and resolves each of them (UAX 9, BD16 and N0), whatever its classes are.
fn pairs_become(
    pairing: &mut Pairing,
    classes: &mut [BidiClass],
    sequence: &Sequence,
) -> Result<(), AllocError>
    requires { length sequence.now.places.now ≡ length classes.old }
    ensures { IfOk result (λ _. classes.new ≡ brackets.n0 sequence.now.frame.level sequence.now.frame.sos (chars_in sequence.now) (originals_in sequence.now) classes.old) }
{
    read_pairs(pairing, sequence, classes)?;
    resolve_pairs(classes, sequence, pairing);
    Ok(())
}

// The place of an opening bracket, and that of its closing bracket, if it was closed.
#[derive(Clone, Copy)]
struct Opening {
    place: usize,
    closing: Option<usize>,
}

// The places of the two brackets of a pair.
#[derive(Clone, Copy)]
struct Pair {
    opening: usize,
    closing: usize,
}

// The last direction among the characters before a place, or sos.
#[derive(Clone, Copy)]
struct Context {
    seen: usize,
    last: BidiClass,
}

// The pairs in the order of their opening brackets.
fn resolve_pairs(classes: &mut [BidiClass], sequence: &Sequence, pairs: &Pairing)
    requires many { length sequence.now.places.now ≡ length classes.old }
    requires within { IsWithin (length classes.old) (reading_of pairs.now) }
    ensures { classes.new ≡ readings.resolve_read sequence.now.frame.level sequence.now.frame.sos pairs.now.openings.items pairs.now.closings.items (originals_in sequence.now) classes.old }
{
    let mut context = Context {
        seen: 0,
        last: sequence.frame.sos,
    };
    for k in 0..pairs.openings.len() {
        let opening = Opening {
            place: pairs.openings[k],
            closing: pairs.closings[k],
        };
        resolve_at(classes, sequence, opening, &mut context);
    }
}

// The pair of an opening bracket, if it was closed.
fn resolve_at(
    classes: &mut [BidiClass],
    sequence: &Sequence,
    opening: Opening,
    context: &mut Context,
)
    requires many { length sequence.now.places.now ≡ length classes.old }
    requires seen { context.old.seen ≤ opening.place }
    requires behind { IfSome opening.closing (λ closing. (opening.place < closing) × (closing < length classes.old)) }
    ensures classes { (sos : BidiClass) → context.old.last ≡ brackets.context sos (take context.old.seen classes.old) → classes.new ≡ readings.resolve_at sequence.now.frame.level sos opening.place opening.closing (originals_in sequence.now) classes.old }
    ensures context { (sos : BidiClass) → context.old.last ≡ brackets.context sos (take context.old.seen classes.old) → context.new.last ≡ brackets.context sos (take context.new.seen classes.old) }
    ensures seen { context.new.seen ≤ opening.place }
{
    let Some(closing) = opening.closing else {
        return;
    };
    let pair = Pair {
        opening: opening.place,
        closing,
    };
    if let Some(class) = pair_class(classes, pair, sequence.frame.level, context) {
        become_class(classes, sequence, pair.opening, class);
        become_class(classes, sequence, pair.closing, class);
    }
}

// What a pair becomes, if anything, by the characters between its brackets and by the context.
fn pair_class(
    classes: &[BidiClass],
    pair: Pair,
    level: u8,
    context: &mut Context,
) -> Option<BidiClass>
    requires closing { pair.opening < pair.closing }
    requires within { pair.closing < length classes.now }
    requires seen { context.old.seen ≤ pair.opening }
    ensures class { (sos : BidiClass) → context.old.last ≡ brackets.context sos (take context.old.seen classes.now) → result ≡ brackets.pair_class level (brackets.context sos (take pair.opening classes.now)) (slice_range classes.now (pair.opening + 1) pair.closing) }
    ensures context { (sos : BidiClass) → context.old.last ≡ brackets.context sos (take context.old.seen classes.now) → context.new.last ≡ brackets.context sos (take context.new.seen classes.now) }
    ensures seen { context.new.seen ≤ pair.opening }
{
    let inside = &classes[pair.opening + 1..pair.closing];
    if has_along(level, inside) {
        return Some(direction(level));
    }
    if !has_against(level, inside) {
        return None;
    }
    advance(context, classes, pair.opening);
    Some(by_context(level, context.last))
}

// The last direction before this place.
fn advance(context: &mut Context, classes: &[BidiClass], place: usize)
    requires seen { context.old.seen ≤ place }
    requires within { place ≤ length classes.now }
    ensures last { (sos : BidiClass) → context.old.last ≡ brackets.context sos (take context.old.seen classes.now) → context.new.last ≡ brackets.context sos (take place classes.now) }
    ensures seen { context.new.seen ≡ place }
{
    for i in context.seen..place {
        context.last = n1_after(context.last, classes[i]);
    }
    context.seen = place;
}

// Both are asked for of all that stands inside without a stop: a compiler makes of such a loop one that looks at many
// classes at once.
#[inline(never)]
fn has_along(level: u8, inside: &[BidiClass]) -> bool
    ensures { result ≡ list_any (brackets.is_along level) inside.now }
{
    let mut has = false;
    for class in inside {
        has |= is_along(level, *class);
    }
    has
}

#[inline(never)]
fn has_against(level: u8, inside: &[BidiClass]) -> bool
    ensures { result ≡ list_any (brackets.is_against level) inside.now }
{
    let mut has = false;
    for class in inside {
        has |= is_against(level, *class);
    }
    has
}

fn is_along(level: u8, class: BidiClass) -> bool
    ensures { result ≡ brackets.is_along level class }
{
    if level % 2 == 0 {
        is_l(class)
    } else {
        is_r(class)
    }
}

fn is_against(level: u8, class: BidiClass) -> bool
    ensures { result ≡ brackets.is_against level class }
{
    if level % 2 == 0 {
        is_r(class)
    } else {
        is_l(class)
    }
}

fn is_l(class: BidiClass) -> bool
    ensures { result ≡ brackets.is_l class }
{
    class == L
}

fn is_r(class: BidiClass) -> bool
    ensures { result ≡ brackets.is_r class }
{
    (class == R) | (class == EN) | (class == AN)
}

fn by_context(level: u8, context: BidiClass) -> BidiClass
    ensures { result ≡ brackets.by_context level context }
{
    if is_against(level, context) {
        opposite(level)
    } else {
        direction(level)
    }
}

fn opposite(level: u8) -> BidiClass
    ensures { result ≡ brackets.opposite level }
{
    if level % 2 == 0 { R } else { L }
}

// The bracket takes the class, and so do the characters directly behind it that were nonspacing marks.
#[tactic(auto, using(crate::proofs::BracketLaws::follow_starts, crate::proofs::BracketLaws::follow_more, crate::proofs::BracketLaws::follow_stops, crate::proofs::BracketLaws::follow_ends))]
fn become_class(classes: &mut [BidiClass], sequence: &Sequence, place: usize, class: BidiClass)
    requires many { length sequence.now.places.now ≡ length classes.old }
    requires place { place < length classes.old }
    ensures { classes.new ≡ brackets.become class place (originals_in sequence.now) classes.old }
{
    classes[place] = class;
    for k in place + 1..classes.len() {
        if !is_mark(sequence.originals[sequence.places[k]]) {
            return;
        }
        classes[k] = class;
    }
}

fn is_mark(class: BidiClass) -> bool
    ensures { result ≡ brackets.is_mark class }
{
    class == NSM
}
