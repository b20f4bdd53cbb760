//! The weak types (UAX 9, 3.3.4): the rules W1 to W7 on the classes of one isolating run sequence. A rule looks first
//! whether a class stands there that it changes. It looks at all of them without a stop: a compiler makes of such a loop
//! one that looks at many classes at once.

ghost use Rattle.std.specs.Prelude.{◌≡◌, ◌+◌, ◌<◌, ◌≤◌, true, false, length, get_or, drop, set};
ghost use Rattle.bidi_resolve.specs.Sides.{Sees};
ghost use Rattle.wm_chars.specs.declared.classes.BidiClass.{BidiClass};
ghost use Rattle.bidi_resolve.specs.Brackets.{is_mark};
ghost use Rattle.bidi_resolve.specs.Weak as weak;
ghost use Rattle.std.specs.List.{list_any};

use crate::sides::Ahead;
use wm_chars::BidiClass;
use wm_chars::BidiClass::{AL, AN, CS, EN, ES, ET, L, NSM, ON, R};

/// W1: a nonspacing mark takes the class of the character before it.
#[tactic(auto, using(crate::proofs::Unchanged::w1_same))]
pub(crate) fn w1(classes: &mut [BidiClass], sos: BidiClass)
    ensures { classes.new ≡ weak.w1 sos classes.old }
{
    if has_mark(classes) {
        w1_pass(classes, sos);
    }
}

#[inline(never)]
fn has_mark(classes: &[BidiClass]) -> bool
    ensures { result ≡ list_any is_mark classes.now }
{
    let mut has = false;
    for class in classes {
        has |= *class == NSM;
    }
    has
}

#[tactic(auto, using(crate::proofs::Passes::pass_more, crate::proofs::WeakLaws::w1_starts))]
fn w1_pass(classes: &mut [BidiClass], sos: BidiClass)
    ensures { classes.new ≡ weak.w1 sos classes.old }
{
    let mut handed = sos;
    for class in classes.iter_mut() {
        let old = *class;
        *class = w1_class(handed, old);
        handed = w1_after(handed, old);
    }
}

pub(crate) fn w1_class(handed: BidiClass, class: BidiClass) -> BidiClass
    ensures { result ≡ weak.w1_class handed class }
{
    if class == NSM { handed } else { class }
}

fn w1_after(handed: BidiClass, class: BidiClass) -> BidiClass
    ensures { result ≡ weak.w1_after handed class }
{
    match class {
        NSM => handed,
        _ => {
            if class.is_isolate_formatting() {
                ON
            } else {
                class
            }
        }
    }
}

/// W2: a European number becomes an Arabic one behind an Arabic letter.
#[tactic(auto, using(crate::proofs::Unchanged::w2_same))]
pub(crate) fn w2(classes: &mut [BidiClass], sos: BidiClass)
    ensures { classes.new ≡ weak.w2 sos classes.old }
{
    if has_european(classes) {
        w2_pass(classes, sos);
    }
}

#[inline(never)]
fn has_european(classes: &[BidiClass]) -> bool
    ensures { result ≡ list_any weak.is_european classes.now }
{
    let mut has = false;
    for class in classes {
        has |= *class == EN;
    }
    has
}

#[tactic(auto, using(crate::proofs::Passes::pass_more, crate::proofs::WeakLaws::w2_starts))]
fn w2_pass(classes: &mut [BidiClass], sos: BidiClass)
    ensures { classes.new ≡ weak.w2 sos classes.old }
{
    let mut last = sos;
    for i in 0..classes.len() {
        last = w2_at(classes, i, last);
    }
}

// One place, and what is remembered behind it. Most characters are no European numbers, and stay.
fn w2_at(classes: &mut [BidiClass], place: usize, last: BidiClass) -> BidiClass
    requires { place < length classes.old }
    ensures class { (d : BidiClass) → classes.new ≡ set classes.old place (weak.w2_class last (get_or classes.old place d)) }
    ensures last { (d : BidiClass) → result ≡ weak.w2_after last (get_or classes.old place d) }
{
    let class = classes[place];
    if is_european(class) {
        classes[place] = w2_class(last, class);
    }
    w2_after(last, class)
}

fn is_european(class: BidiClass) -> bool
    ensures w2 { result ≡ false → (last : BidiClass) → weak.w2_class last class ≡ class }
    ensures w7 { result ≡ false → (last : BidiClass) → weak.w7_class last class ≡ class }
{
    class == EN
}

pub(crate) fn w2_class(last: BidiClass, class: BidiClass) -> BidiClass
    ensures { result ≡ weak.w2_class last class }
{
    match (last, class) {
        (AL, EN) => AN,
        _ => class,
    }
}

fn w2_after(last: BidiClass, class: BidiClass) -> BidiClass
    ensures { result ≡ weak.w2_after last class }
{
    if class.is_strong() { class } else { last }
}

/// W3: an Arabic letter becomes R.
#[tactic(auto, using(crate::proofs::Passes::map_more))]
pub(crate) fn w3(classes: &mut [BidiClass])
    ensures { classes.new ≡ weak.w3 classes.old }
{
    for class in classes.iter_mut() {
        *class = w3_class(*class);
    }
}

pub(crate) fn w3_class(class: BidiClass) -> BidiClass
    ensures { result ≡ weak.w3_class class }
{
    if class == AL { R } else { class }
}

/// W4: one separator between two numbers becomes a number.
#[tactic(auto, using(crate::proofs::Unchanged::w4_same))]
pub(crate) fn w4(classes: &mut [BidiClass])
    ensures { classes.new ≡ weak.w4 classes.old }
{
    if has_separator(classes) {
        w4_pass(classes);
    }
}

#[inline(never)]
fn has_separator(classes: &[BidiClass]) -> bool
    ensures { result ≡ list_any weak.is_separator classes.now }
{
    let mut has = false;
    for class in classes {
        has |= (*class == ES) | (*class == CS);
    }
    has
}

#[tactic(auto, using(crate::proofs::Passes::pass_more, crate::proofs::WeakLaws::w4_starts))]
fn w4_pass(classes: &mut [BidiClass])
    ensures { classes.new ≡ weak.w4 classes.old }
{
    let mut before = ON;
    for i in 0..classes.len() {
        let old = classes[i];
        w4_at(classes, i, before);
        before = old;
    }
}

fn w4_at(classes: &mut [BidiClass], place: usize, before: BidiClass)
    requires { place < length classes.old }
    ensures { (d : BidiClass) → classes.new ≡ set classes.old place (weak.w4_class before (get_or classes.old place d) (weak.next_to (drop (place + 1) classes.old))) }
{
    let class = classes[place];
    if is_separator(class) {
        classes[place] = w4_class(before, class, next_to(classes, place + 1));
    }
}

fn is_separator(class: BidiClass) -> bool
    ensures { result ≡ false → (before after : BidiClass) → weak.w4_class before class after ≡ class }
{
    matches!(class, ES | CS)
}

fn next_to(classes: &[BidiClass], place: usize) -> BidiClass
    ensures { result ≡ weak.next_to (drop place classes.now) }
{
    if place < classes.len() {
        classes[place]
    } else {
        ON
    }
}

fn w4_class(before: BidiClass, class: BidiClass, after: BidiClass) -> BidiClass
    ensures { result ≡ weak.w4_class before class after }
{
    match (before, class, after) {
        (EN, ES | CS, EN) => EN,
        (AN, CS, AN) => AN,
        _ => class,
    }
}

/// W5: a run of terminators next to a European number becomes European numbers.
#[tactic(auto, using(crate::proofs::Unchanged::w5_same))]
pub(crate) fn w5(classes: &mut [BidiClass])
    ensures { classes.new ≡ weak.w5 classes.old }
{
    if has_terminator(classes) {
        w5_pass(classes);
    }
}

#[inline(never)]
fn has_terminator(classes: &[BidiClass]) -> bool
    ensures { result ≡ list_any weak.is_terminator classes.now }
{
    let mut has = false;
    for class in classes {
        has |= *class == ET;
    }
    has
}

#[tactic(auto, using(crate::proofs::Passes::pass_more, crate::proofs::WeakLaws::w5_starts))]
fn w5_pass(classes: &mut [BidiClass])
    ensures { classes.new ≡ weak.w5 classes.old }
{
    let mut before = ON;
    let mut ahead = Ahead { until: 0, side: ON };
    for i in 0..classes.len() {
        let old = classes[i];
        ahead = w5_at(classes, i, before, ahead);
        before = w5_after(before, old);
    }
}

// Tells what stands behind the place and the run that begins there.
fn w5_at(classes: &mut [BidiClass], place: usize, before: BidiClass, ahead: Ahead) -> Ahead
    requires within { place < length classes.old }
    requires sees { Sees weak.beside classes.old (place + 1) ahead }
    ensures class { (d : BidiClass) → classes.new ≡ set classes.old place (weak.w5_class before (get_or classes.old place d) (weak.beside (drop (place + 1) classes.old))) }
    ensures sees { Sees weak.beside classes.old (place + 1) result }
{
    let class = classes[place];
    if !is_passed_over(class) {
        return ahead;
    }
    let ahead = w5_ahead(classes, place + 1, ahead);
    classes[place] = w5_class(before, class, ahead.side);
    ahead
}

// What stands behind the run of terminators that begins at the place, or that it lies in.
fn w5_ahead(classes: &[BidiClass], place: usize, ahead: Ahead) -> Ahead
    requires within { place ≤ length classes.now }
    requires sees { Sees weak.beside classes.now place ahead }
    ensures sees { Sees weak.beside classes.now place result }
    ensures reaches { place ≤ result.until }
{
    if place <= ahead.until {
        ahead
    } else {
        beside(classes, place)
    }
}

// What stands behind the run of terminators that begins at the place.
fn beside(classes: &[BidiClass], place: usize) -> Ahead
    requires { place ≤ length classes.now }
    ensures sees { Sees weak.beside classes.now place result }
    ensures reaches { place ≤ result.until }
{
    for until in place..classes.len() {
        let side = classes[until];
        if !is_passed_over(side) {
            return Ahead { until, side };
        }
    }
    Ahead {
        until: classes.len(),
        side: ON,
    }
}

fn is_passed_over(class: BidiClass) -> bool
    ensures yes { result ≡ true → (last : BidiClass) → weak.w5_after last class ≡ last }
    ensures no { result ≡ false → (last : BidiClass) → weak.w5_after last class ≡ class }
    ensures stays { result ≡ false → (before after : BidiClass) → weak.w5_class before class after ≡ class }
{
    class == ET
}

fn w5_class(before: BidiClass, class: BidiClass, after: BidiClass) -> BidiClass
    ensures { result ≡ weak.w5_class before class after }
{
    if class == ET && (before == EN || after == EN) {
        EN
    } else {
        class
    }
}

fn w5_after(last: BidiClass, class: BidiClass) -> BidiClass
    ensures { result ≡ weak.w5_after last class }
{
    if class == ET { last } else { class }
}

/// W6: the separators and terminators that remain become neutral.
#[tactic(auto, using(crate::proofs::Passes::map_more))]
pub(crate) fn w6(classes: &mut [BidiClass])
    ensures { classes.new ≡ weak.w6 classes.old }
{
    for class in classes.iter_mut() {
        *class = w6_class(*class);
    }
}

pub(crate) fn w6_class(class: BidiClass) -> BidiClass
    ensures { result ≡ weak.w6_class class }
{
    if (class == ES) | (class == ET) | (class == CS) {
        ON
    } else {
        class
    }
}

/// W7: a European number becomes L behind L.
#[tactic(auto, using(crate::proofs::Unchanged::w7_same))]
pub(crate) fn w7(classes: &mut [BidiClass], sos: BidiClass)
    ensures { classes.new ≡ weak.w7 sos classes.old }
{
    if has_european(classes) {
        w7_pass(classes, sos);
    }
}

#[tactic(auto, using(crate::proofs::Passes::pass_more, crate::proofs::WeakLaws::w7_starts))]
fn w7_pass(classes: &mut [BidiClass], sos: BidiClass)
    ensures { classes.new ≡ weak.w7 sos classes.old }
{
    let mut last = sos;
    for i in 0..classes.len() {
        last = w7_at(classes, i, last);
    }
}

// One place, and what is remembered behind it. Most characters are no European numbers, and stay.
fn w7_at(classes: &mut [BidiClass], place: usize, last: BidiClass) -> BidiClass
    requires { place < length classes.old }
    ensures class { (d : BidiClass) → classes.new ≡ set classes.old place (weak.w7_class last (get_or classes.old place d)) }
    ensures last { (d : BidiClass) → result ≡ weak.w7_after last (get_or classes.old place d) }
{
    let class = classes[place];
    if is_european(class) {
        classes[place] = w7_class(last, class);
    }
    w7_after(last, class)
}

pub(crate) fn w7_class(last: BidiClass, class: BidiClass) -> BidiClass
    ensures { result ≡ weak.w7_class last class }
{
    match (last, class) {
        (L, EN) => L,
        _ => class,
    }
}

fn w7_after(last: BidiClass, class: BidiClass) -> BidiClass
    ensures { result ≡ weak.w7_after last class }
{
    match class {
        L | R => class,
        _ => last,
    }
}
