//! The explicit levels and classes of a paragraph (UAX 9, X1 to X9).

ghost use Rattle.std.specs.Prelude.{ℕ, ◌≡◌, ◌+◌, ◌<◌, ◌≤◌, ◌^◌, ◌∷◌, true, length, set, IfOk, OnOk};
ghost use Rattle.std.specs.List.{All};
ghost use Rattle.std.specs.Option.{unwrap_or};
ghost use Rattle.bidi_explicit.specs.Ahead.{rights};
ghost use Rattle.bidi_explicit.specs.Paragraph.{AreAligned, IsBetween};
ghost use Rattle.bidi_explicit.specs.Explicit.{plain, entered, taken, entries, begin, level_at, levels_by, class_at, classes_by, explicit_levels, explicit_classes, removed_marks};
ghost use Rattle.bidi_explicit.specs.Machine.{state_of, total};
ghost use Rattle.bidi_explicit.specs.Stack.{stacked};

use crate::ahead;
use crate::machine::{self, Entry, Machine};
use crate::paragraph::{ClassList, LevelList, Levels, MarkList};
use crate::stack::Stack;
use std::alloc::{AllocError, Global};
use wm_chars::BidiClass;
use wm_chars::BidiClass::{AL, AN, CS, EN, ES, ET, L, NSM, ON, R, S, WS};

/// The explicit levels of a paragraph whose base level is 0 or 1 (UAX 9, X1 to X9). No level is below the base level
/// or above 125.
pub fn levels(alloc: Global, classes: &[BidiClass], base: u8) -> Result<Levels, AllocError>
    requires { base ≤ 1 }
    ensures base { IfOk result (λ levels. levels.base ≡ base) }
    ensures level { IfOk result (λ levels. levels.level.items ≡ explicit_levels base classes.now) }
    ensures class { IfOk result (λ levels. levels.class.items ≡ explicit_classes base classes.now) }
    ensures original { IfOk result (λ levels. levels.original.items ≡ classes.now) }
    ensures removed { IfOk result (λ levels. levels.removed.items ≡ removed_marks classes.now) }
    ensures aligned { IfOk result (λ levels. AreAligned levels) }
    ensures between { IfOk result (λ levels. All (IsBetween base) levels.level.items) }
{
    let Written { level, class } = walk(alloc, classes, base)?;
    let original = Vec::from_slice(alloc, classes)?;
    let removed = marks(alloc, classes)?;
    Ok(Levels {
        base,
        level,
        class,
        original,
        removed,
    })
}

// The levels and classes of the characters.
#[derive(Drop)]
struct Written {
    level: LevelList,
    class: ClassList,
}

#[tactic(auto, unfolding(crate::specs::Explicit::explicit_levels, crate::specs::Explicit::explicit_classes))]
fn walk(alloc: Global, classes: &[BidiClass], base: u8) -> Result<Written, AllocError>
    ensures level { IfOk result (λ out. out.level.items ≡ explicit_levels base classes.now) }
    ensures class { IfOk result (λ out. out.class.items ≡ explicit_classes base classes.now) }
{
    let mut answers = ahead::rights(alloc, classes)?;
    let mut machine = machine::begin(alloc, base);
    let mut level = Vec::from_elem(alloc, base, classes.len())?;
    let mut class = Vec::from_slice(alloc, classes)?;
    write_all(
        &mut machine,
        &mut answers,
        classes,
        base,
        &mut level,
        &mut class,
    )?;
    Ok(Written { level, class })
}

// Writes the level and the class of each character.
#[tactic(auto, using(crate::proofs::Writing::written_more))]
fn write_all(
    machine: &mut Machine,
    answers: &mut Stack<bool>,
    classes: &[BidiClass],
    base: u8,
    level: &mut [u8],
    class: &mut [BidiClass],
) -> Result<(), AllocError>
    requires machine { state_of machine.old ≡ begin base }
    requires total { total machine.old ≡ 0 }
    requires answers { stacked answers.old ≡ rights classes.now }
    requires level { length level.old ≡ length classes.now }
    requires class { length class.old ≡ length classes.now }
    ensures level { IfOk result (λ _. level.new ≡ levels_by base base classes.now (entries (begin base) classes.now)) }
    ensures class { IfOk result (λ _. class.new ≡ classes_by classes.now (entries (begin base) classes.now)) }
{
    let mut last = base;
    for i in 0..classes.len() {
        last = write_at(machine, answers, classes[i], base, last, i, level, class)?;
    }
    Ok(())
}

// Writes the level and the class of one character of this class, and tells its level.
fn write_at(
    machine: &mut Machine,
    answers: &mut Stack<bool>,
    own: BidiClass,
    base: u8,
    last: u8,
    i: usize,
    level: &mut [u8],
    class: &mut [BidiClass],
) -> Result<u8, AllocError>
    requires total { total machine.old + 1 < 2 ^ 64 }
    requires level { i < length level.old }
    requires class { i < length class.old }
    ensures state { OnOk result ((after : _) → stacked answers.old ≡ rights (own ∷ after) → state_of machine.new ≡ entered (plain own after) (state_of machine.old)) }
    ensures answers { OnOk result ((after : _) → stacked answers.old ≡ rights (own ∷ after) → stacked answers.new ≡ rights after) }
    ensures total { OnOk result (total machine.new ≤ total machine.old + 1) }
    ensures last { IfOk result (λ now. (after : _) → stacked answers.old ≡ rights (own ∷ after) → now ≡ level_at base last own (taken own (state_of machine.old) (entered (plain own after) (state_of machine.old)))) }
    ensures level { IfOk result (λ now. level.new ≡ set level.old i now) }
    ensures class { OnOk result ((after : _) → stacked answers.old ≡ rights (own ∷ after) → class.new ≡ set class.old i (class_at own (taken own (state_of machine.old) (entered (plain own after) (state_of machine.old))))) }
{
    if is_still(own) {
        let now = machine.top.level;
        level[i] = now;
        class[i] = machine.top.instead.unwrap_or(own);
        return Ok(now);
    }
    let entry = step(machine, answers, own)?;
    let now = level_at(base, last, own, entry);
    level[i] = now;
    class[i] = class_at(own, entry);
    Ok(now)
}

// One character: what it does to the stack, and the entry that it takes.
fn step(
    machine: &mut Machine,
    answers: &mut Stack<bool>,
    class: BidiClass,
) -> Result<Entry, AllocError>
    requires { total machine.old + 1 < 2 ^ 64 }
    ensures entry { IfOk result (λ entry. (after : _) → stacked answers.old ≡ rights (class ∷ after) → entry ≡ taken class (state_of machine.old) (entered (plain class after) (state_of machine.old))) }
    ensures state { OnOk result ((after : _) → stacked answers.old ≡ rights (class ∷ after) → state_of machine.new ≡ entered (plain class after) (state_of machine.old)) }
    ensures answers { OnOk result ((after : _) → stacked answers.old ≡ rights (class ∷ after) → stacked answers.new ≡ rights after) }
    ensures total { OnOk result (total machine.new ≤ total machine.old + 1) }
{
    let before = machine.top;
    let plain = plain(class, answers);
    machine::enter(machine, plain)?;
    Ok(taken(class, before, machine.top))
}

// X5c: an FSI as the RLI or LRI that it is treated as.
fn plain(class: BidiClass, answers: &mut Stack<bool>) -> BidiClass
    ensures plain { (after : _) → stacked answers.old ≡ rights (class ∷ after) → result ≡ plain class after }
    ensures answers { (after : _) → stacked answers.old ≡ rights (class ∷ after) → stacked answers.new ≡ rights after }
{
    match class {
        BidiClass::FSI => {
            if answers.pop().unwrap_or(false) {
                BidiClass::RLI
            } else {
                BidiClass::LRI
            }
        }
        _ => class,
    }
}

// Which of the last entries before and behind a character it takes.
fn taken(class: BidiClass, before: Entry, behind: Entry) -> Entry
    ensures { (s t : _) → before ≡ s.top → behind ≡ t.top → result ≡ taken class s t }
{
    match class {
        BidiClass::PDI => behind,
        _ => before,
    }
}

// Whether a character leaves the stack as it is and takes the level of the last entry.
fn is_still(class: BidiClass) -> bool
    ensures entered { result ≡ true → (after : _) → (s : _) → entered (plain class after) s ≡ s }
    ensures taken { result ≡ true → (s t : _) → taken class s t ≡ s.top }
    ensures rights { result ≡ true → (after : _) → rights (class ∷ after) ≡ rights after }
    ensures level { result ≡ true → (base last : ℕ) → (entry : _) → level_at base last class entry ≡ entry.level }
    ensures class { result ≡ true → (entry : _) → class_at class entry ≡ unwrap_or entry.instead class }
{
    matches!(
        class,
        L | R | AL | EN | ES | ET | AN | CS | NSM | S | WS | ON
    )
}

fn level_at(base: u8, last: u8, class: BidiClass, entry: Entry) -> u8
    ensures { result ≡ level_at base last class entry }
{
    match class {
        BidiClass::B => base,
        _ => {
            if class.is_removed() {
                last
            } else {
                entry.level
            }
        }
    }
}

fn class_at(class: BidiClass, entry: Entry) -> BidiClass
    ensures { result ≡ class_at class entry }
{
    match class {
        BidiClass::B => class,
        _ => {
            if class.is_removed() {
                class
            } else {
                entry.instead.unwrap_or(class)
            }
        }
    }
}

fn marks(alloc: Global, classes: &[BidiClass]) -> Result<MarkList, AllocError>
    ensures { IfOk result (λ marks. marks.items ≡ removed_marks classes.now) }
{
    let mut marks = Vec::from_elem(alloc, false, classes.len())?;
    mark(&mut marks, classes);
    Ok(marks)
}

#[tactic(auto, using(crate::proofs::Writing::written_more))]
fn mark(marks: &mut [bool], classes: &[BidiClass])
    requires { length marks.old ≡ length classes.now }
    ensures { marks.new ≡ removed_marks classes.now }
{
    for i in 0..classes.len() {
        marks[i] = classes[i].is_removed();
    }
}
