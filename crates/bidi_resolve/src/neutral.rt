//! Neutral and isolate formatting types (UAX 9, 3.3.5, N1 and N2), and the implicit levels (3.3.6, I1 and I2).

ghost use Rattle.bidi_resolve.specs.Neutral as neutral;
ghost use Rattle.bidi_resolve.specs.Sides.{Sees};
ghost use Rattle.std.specs.Prelude.{◌≡◌, ◌+◌, ◌<◌, ◌≤◌, drop, false, get_or, length, set, true};
ghost use Rattle.wm_chars.specs.Classes.{is_neutral};
ghost use Rattle.wm_chars.specs.declared.classes.BidiClass.{BidiClass};

use crate::isolating::Frame;
use crate::sides::Ahead;
use wm_chars::BidiClass;
use wm_chars::BidiClass::{AN, EN, L, R};

/// The embedding direction.
pub(crate) fn direction(level: u8) -> BidiClass
    ensures { result ≡ neutral.direction level }
{
    if level % 2 == 0 { L } else { R }
}

/// N1 and N2: a run of neutrals takes the direction of its two sides where they agree, and else the embedding
/// direction.
pub(crate) fn n1_n2(classes: &mut [BidiClass], frame: Frame)
    ensures { classes.new ≡ neutral.n2 frame.level (neutral.n1 frame.sos frame.eos classes.old) }
{
    let mut seen = Seen {
        before: frame.sos,
        ahead: Ahead {
            until: 0,
            side: frame.eos,
        },
    };
    for i in 0..classes.len() {
        seen = step(classes, i, frame, seen);
    }
}

// What is seen from behind a place: the last direction before, and the next one behind.
#[derive(Clone, Copy)]
struct Seen {
    before: BidiClass,
    ahead: Ahead,
}

// One place. Most characters of a text are L or R, which stay.
fn step(classes: &mut [BidiClass], place: usize, frame: Frame, seen: Seen) -> Seen
    requires within { place < length classes.old }
    requires sees { Sees (neutral.side frame.eos) classes.old (place + 1) seen.ahead }
    ensures class { (d : BidiClass) → classes.new ≡ set classes.old place (neutral.n2_class frame.level (neutral.n1_class seen.before (get_or classes.old place d) (neutral.side frame.eos (drop (place + 1) classes.old)))) }
    ensures before { (d : BidiClass) → result.before ≡ neutral.n1_after seen.before (get_or classes.old place d) }
    ensures sees { Sees (neutral.side frame.eos) classes.old (place + 1) result.ahead }
{
    let class = classes[place];
    if is_letter(class) {
        return Seen {
            before: class,
            ahead: seen.ahead,
        };
    }
    let ahead = neutral_at(classes, place, frame, seen);
    Seen {
        before: n1_after(seen.before, class),
        ahead,
    }
}

fn is_letter(class: BidiClass) -> bool
    ensures other { result ≡ true → is_neutral class ≡ false }
    ensures after { result ≡ true → (last : BidiClass) → neutral.n1_after last class ≡ class }
{
    matches!(class, L | R)
}

// Tells the next direction behind the place and the run that begins there.
fn neutral_at(classes: &mut [BidiClass], place: usize, frame: Frame, seen: Seen) -> Ahead
    requires within { place < length classes.old }
    requires sees { Sees (neutral.side frame.eos) classes.old (place + 1) seen.ahead }
    ensures class { (d : BidiClass) → classes.new ≡ set classes.old place (neutral.n2_class frame.level (neutral.n1_class seen.before (get_or classes.old place d) (neutral.side frame.eos (drop (place + 1) classes.old)))) }
    ensures sees { Sees (neutral.side frame.eos) classes.old (place + 1) result }
{
    let class = classes[place];
    if !class.is_neutral() {
        return seen.ahead;
    }
    let ahead = n1_ahead(classes, place + 1, frame.eos, seen.ahead);
    classes[place] = n2_class(frame.level, n1_class(seen.before, class, ahead.side));
    ahead
}

// The next direction from the place on, by what was seen ahead of the place before.
fn n1_ahead(classes: &[BidiClass], place: usize, eos: BidiClass, ahead: Ahead) -> Ahead
    requires within { place ≤ length classes.now }
    requires sees { Sees (neutral.side eos) classes.now place ahead }
    ensures sees { Sees (neutral.side eos) classes.now place result }
    ensures reaches { place ≤ result.until }
{
    if place <= ahead.until {
        ahead
    } else {
        side(classes, place, eos)
    }
}

// The next direction from the place on.
fn side(classes: &[BidiClass], place: usize, eos: BidiClass) -> Ahead
    requires { place ≤ length classes.now }
    ensures sees { Sees (neutral.side eos) classes.now place result }
    ensures reaches { place ≤ result.until }
{
    for until in place..classes.len() {
        let class = classes[until];
        if has_direction(class) {
            return Ahead {
                until,
                side: n1_after(eos, class),
            };
        }
    }
    Ahead {
        until: classes.len(),
        side: eos,
    }
}

fn has_direction(class: BidiClass) -> bool
    ensures yes { result ≡ true → (last other : BidiClass) → neutral.n1_after last class ≡ neutral.n1_after other class }
    ensures no { result ≡ false → (last : BidiClass) → neutral.n1_after last class ≡ last }
{
    matches!(class, L | R | EN | AN)
}

pub(crate) fn n1_class(before: BidiClass, class: BidiClass, after: BidiClass) -> BidiClass
    ensures { result ≡ neutral.n1_class before class after }
{
    if !class.is_neutral() {
        return class;
    }
    match (before, after) {
        (L, L) => L,
        (R, R) => R,
        _ => class,
    }
}

/// The direction that a character shows, or else the one that was seen last.
pub(crate) fn n1_after(last: BidiClass, class: BidiClass) -> BidiClass
    ensures { result ≡ neutral.n1_after last class }
{
    if class == L {
        L
    } else if (class == R) | (class == EN) | (class == AN) {
        R
    } else {
        last
    }
}

pub(crate) fn n2_class(level: u8, class: BidiClass) -> BidiClass
    ensures { result ≡ neutral.n2_class level class }
{
    if class.is_neutral() {
        direction(level)
    } else {
        class
    }
}

/// I1 and I2: how far a character is raised above the level of its sequence.
pub(crate) fn raised(frame: Frame, class: BidiClass) -> u8
    ensures { result ≡ neutral.raised frame.level class }
{
    let level = frame.level;
    if level % 2 == 0 {
        level + i1(class)
    } else {
        level + i2(class)
    }
}

fn i1(class: BidiClass) -> u8
    ensures is { result ≡ neutral.i1 class }
    ensures most { result ≤ 2 }
{
    match class {
        R => 1,
        AN | EN => 2,
        _ => 0,
    }
}

fn i2(class: BidiClass) -> u8
    ensures is { result ≡ neutral.i2 class }
    ensures most { result ≤ 2 }
{
    match class {
        L | EN | AN => 1,
        _ => 0,
    }
}
