//! The directional status stack (UAX 9, X1 to X7).

ghost use Rattle.std.specs.Prelude.{◌≡◌, ◌+◌, ◌<◌, ◌≤◌, ◌^◌, OnOk};
ghost use Rattle.bidi_explicit.specs.Explicit.{begin, next_odd, next_even, has_room, pushed, embedded, isolated, standing_on, below_isolate, closed, left, entered};
ghost use Rattle.bidi_explicit.specs.Machine.{state_of, total};
ghost use Rattle.bidi_explicit.specs.Stack.{stacked};

use crate::stack::Stack;
use std::alloc::{AllocError, Global};
use wm_chars::BidiClass;

// An entry of the directional status stack (UAX 9, 3.3.2).
#[derive(Clone, Copy)]
pub(crate) struct Entry {
    // The embedding level, at most 125.
    pub(crate) level: u8,
    // The class that stands in place of a character's own, if there is one.
    pub(crate) instead: Option<BidiClass>,
    // Whether an isolate initiator pushed it.
    pub(crate) isolate: bool,
}

// The directional status stack with its counts.
#[derive(Drop)]
pub(crate) struct Machine {
    // The last entry.
    pub(crate) top: Entry,
    // The entries below it.
    below: Stack<Entry>,
    overflow_isolates: usize,
    overflow_embeddings: usize,
    valid_isolates: usize,
}

// The greatest level of an entry (UAX 9, BD2).
const GREATEST: u32 = 125;

// X1.
pub(crate) fn begin(alloc: Global, base: u8) -> Machine
    ensures state { state_of result ≡ begin base }
    ensures total { total result ≡ 0 }
{
    Machine {
        top: Entry {
            level: base,
            instead: None,
            isolate: false,
        },
        below: Stack::new(alloc),
        overflow_isolates: 0,
        overflow_embeddings: 0,
        valid_isolates: 0,
    }
}

// X2 to X7: what a character does to the stack.
pub(crate) fn enter(machine: &mut Machine, class: BidiClass) -> Result<(), AllocError>
    requires { total machine.old + 1 < 2 ^ 64 }
    ensures state { OnOk result (state_of machine.new ≡ entered class (state_of machine.old)) }
    ensures total { OnOk result (total machine.new ≤ total machine.old + 1) }
{
    let level = machine.top.level;
    match class {
        BidiClass::RLE => embed(machine, next_odd(level), None),
        BidiClass::LRE => embed(machine, next_even(level), None),
        BidiClass::RLO => embed(machine, next_odd(level), Some(BidiClass::R)),
        BidiClass::LRO => embed(machine, next_even(level), Some(BidiClass::L)),
        BidiClass::RLI => isolate(machine, next_odd(level)),
        BidiClass::LRI => isolate(machine, next_even(level)),
        BidiClass::PDI => {
            close(machine);
            Ok(())
        }
        BidiClass::PDF => {
            leave(machine);
            Ok(())
        }
        _ => Ok(()),
    }
}

fn next_odd(level: u8) -> u32
    ensures { result ≡ next_odd level }
{
    let level = u32::from(level);
    level + 1 + level % 2
}

fn next_even(level: u8) -> u32
    ensures { result ≡ next_even level }
{
    let level = u32::from(level);
    level + 2 - level % 2
}

// Whether an entry of this level can be pushed.
fn has_room(machine: &Machine, level: u32) -> bool
    ensures { result ≡ has_room (state_of machine.now) level }
{
    level <= GREATEST && machine.overflow_isolates == 0 && machine.overflow_embeddings == 0
}

fn push(machine: &mut Machine, entry: Entry) -> Result<(), AllocError>
    ensures state { OnOk result (state_of machine.new ≡ pushed entry (state_of machine.old)) }
    ensures total { OnOk result (total machine.new ≡ total machine.old) }
{
    machine.below.push(machine.top)?;
    machine.top = entry;
    Ok(())
}

// X2 to X5.
fn embed(machine: &mut Machine, level: u32, instead: Option<BidiClass>) -> Result<(), AllocError>
    requires { total machine.old + 1 < 2 ^ 64 }
    ensures state { OnOk result (state_of machine.new ≡ embedded level instead (state_of machine.old)) }
    ensures total { OnOk result (total machine.new ≤ total machine.old + 1) }
{
    if has_room(machine, level) {
        push(
            machine,
            Entry {
                level: level as u8,
                instead,
                isolate: false,
            },
        )?;
    } else if machine.overflow_isolates == 0 {
        machine.overflow_embeddings += 1;
    }
    Ok(())
}

// X5a, X5b.
fn isolate(machine: &mut Machine, level: u32) -> Result<(), AllocError>
    requires { total machine.old + 1 < 2 ^ 64 }
    ensures state { OnOk result (state_of machine.new ≡ isolated level (state_of machine.old)) }
    ensures total { OnOk result (total machine.new ≤ total machine.old + 1) }
{
    if has_room(machine, level) {
        machine.valid_isolates += 1;
        push(
            machine,
            Entry {
                level: level as u8,
                instead: None,
                isolate: true,
            },
        )?;
    } else {
        machine.overflow_isolates += 1;
    }
    Ok(())
}

// X6a.
fn close(machine: &mut Machine)
    ensures state { state_of machine.new ≡ closed (state_of machine.old) }
    ensures total { total machine.new ≤ total machine.old }
{
    if machine.overflow_isolates > 0 {
        machine.overflow_isolates -= 1;
    } else if machine.valid_isolates > 0 {
        machine.overflow_embeddings = 0;
        machine.valid_isolates -= 1;
        pop_isolate(machine);
    }
}

// Takes away the last isolate with all in it.
fn pop_isolate(machine: &mut Machine)
    ensures state { state_of machine.new ≡ standing_on (below_isolate machine.old.top (stacked machine.old.below)) (state_of machine.old) }
    ensures total { total machine.new ≡ total machine.old }
{
    while let Some(entry) = machine.below.pop() {
        let ends = machine.top.isolate;
        machine.top = entry;
        if ends {
            break;
        }
    }
}

// X7.
fn leave(machine: &mut Machine)
    ensures state { state_of machine.new ≡ left (state_of machine.old) }
    ensures total { total machine.new ≤ total machine.old }
{
    if machine.overflow_isolates > 0 {} else if machine.overflow_embeddings > 0 {
        machine.overflow_embeddings -= 1;
    } else if !machine.top.isolate {
        if let Some(entry) = machine.below.pop() {
            machine.top = entry;
        }
    }
}
