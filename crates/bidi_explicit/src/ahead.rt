//! What P2 and P3 find in each isolate that an FSI begins (UAX 9, X5c), in one pass from the end.

ghost use Rattle.std.specs.Prelude.{◌≡◌, [], ◌∷◌, List, false, OnOk, IfOk};
ghost use Rattle.bidi_explicit.specs.Base.{turns_right};
ghost use Rattle.bidi_explicit.specs.Ahead.{ahead_of, ahead_at, found_before, rights};
ghost use Rattle.bidi_explicit.specs.Stack.{stacked};

use crate::isolates::{Kind, kind_of};
use crate::stack::Stack;
use std::alloc::{AllocError, Global};
use wm_chars::BidiClass;

// What P2 and P3 find behind a place, as it is read from the end.
#[derive(Drop)]
pub(crate) struct Scan {
    // Whether they give 1 for the text up to the PDI that closes it.
    found: bool,
    // For each PDI read so far that no isolate initiator has matched: whether P2 and P3 give 1 for the text after it.
    // The last one read is on top.
    pending: Stack<bool>,
}

// Whether each FSI is treated as an RLI, in their order (UAX 9, X5c).
pub(crate) fn rights(alloc: Global, classes: &[BidiClass]) -> Result<Stack<bool>, AllocError>
    ensures { IfOk result (λ answers. stacked answers ≡ rights classes.now) }
{
    if has_fsi(classes) {
        read_rights(alloc, classes)
    } else {
        Ok(Stack::new(alloc))
    }
}

fn has_fsi(classes: &[BidiClass]) -> bool
    ensures { result ≡ false → rights classes.now ≡ [] }
{
    let mut has = false;
    for class in classes {
        has |= *class == BidiClass::FSI;
    }
    has
}

// One pass from the end answers for all. What stands between isolates is looked into where an isolate begins or ends before
// it.
fn read_rights(alloc: Global, classes: &[BidiClass]) -> Result<Stack<bool>, AllocError>
    ensures { IfOk result (λ answers. stacked answers ≡ rights classes.now) }
{
    let mut scan = Scan {
        found: false,
        pending: Stack::new(alloc),
    };
    let mut answers = Stack::new(alloc);
    let mut read_from = classes.len();
    let mut i = classes.len();
    while i > 0 {
        i -= 1;
        if classes[i].is_isolate_formatting() {
            scan.found = found_in(&classes[i + 1..read_from], scan.found);
            note(&mut answers, classes[i], scan.found)?;
            read(&mut scan, kind_of(classes[i]))?;
            read_from = i;
        }
    }
    Ok(answers)
}

// What P2 and P3 find where these characters, none of which begins or ends an isolate, stand before what they find that in.
fn found_in(between: &[BidiClass], found: bool) -> bool
    ensures { result ≡ found_before between.now found }
{
    for class in between {
        if let Kind::Strong(level) = kind_of(*class) {
            return level == 1;
        }
    }
    found
}

// One more character in front, of which P2 and P3 find this in what it would hold.
fn note(answers: &mut Stack<bool>, class: BidiClass, found: bool) -> Result<(), AllocError>
    ensures { OnOk result ((after : _) → found ≡ turns_right after → stacked answers.old ≡ rights after → stacked answers.new ≡ rights (class ∷ after)) }
{
    if class == BidiClass::FSI {
        answers.push(found)?;
    }
    Ok(())
}

fn read(scan: &mut Scan, kind: Kind) -> Result<(), AllocError>
    ensures { OnOk result (ahead_of scan.new ≡ ahead_at kind (ahead_of scan.old)) }
{
    match kind {
        Kind::Strong(level) => scan.found = level == 1,
        Kind::Opens => scan.found = scan.pending.pop().unwrap_or(false),
        Kind::Closes => {
            scan.pending.push(scan.found)?;
            scan.found = false;
        }
        Kind::Other => {}
    }
    Ok(())
}
