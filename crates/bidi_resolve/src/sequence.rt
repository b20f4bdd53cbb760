//! One isolating run sequence by all rules (UAX 9, 3.3.4 to 3.3.6).

ghost use Rattle.bidi_resolve.specs.Isolating.{chars_in, classes_in, originals_in, resolved_in};
ghost use Rattle.bidi_resolve.specs.Brackets as brackets;
ghost use Rattle.bidi_resolve.specs.Neutral as neutrals;
ghost use Rattle.bidi_resolve.specs.Sequence as sequence;
ghost use Rattle.std.specs.List.{list_any};
ghost use Rattle.std.specs.Prelude.{◌≡◌, ◌<◌, ◌≤◌, All, IfOk, OnErr, OnOk, length, slice_index};
ghost use Rattle.wm_chars.specs.Classes.{is_neutral};

use crate::brackets::n0;
use crate::isolating::{Frame, Sequence};
use crate::neutral::n1_n2;
use crate::pairing::Pairing;
use crate::places::{level_of, read_classes, write_classes, write_levels};
use crate::weak::{w1, w2, w3, w4, w5, w6, w7};
use bidi_explicit::{ClassList, Levels, Run};
use std::alloc::{AllocError, Global};
use wm_chars::BidiClass;
use wm_chars::BidiClass::{AL, CS, EN, ES, ET, NSM};

/// Resolves one isolating run sequence (UAX 9, 3.3.4 to 3.3.6): the rules W1 to W7, N0 to N2, I1 and I2. The
/// characters and each list in `levels` have one length, and the places of the sequence stand below it and have
/// levels of at most 125. The classes and levels at other places stay as they are, and all of them where memory is short.
#[tactic(auto, unfolding(crate::specs::Sequence::sequence_levels, crate::specs::Sequence::sequence_classes))]
pub fn resolve(
    alloc: Global,
    chars: &[char],
    levels: &mut Levels,
    run: &Run,
) -> Result<(), AllocError>
    requires level { length levels.old.level.items ≡ length chars.now }
    requires class { length levels.old.class.items ≡ length chars.now }
    requires original { length levels.old.original.items ≡ length chars.now }
    requires places { All (λ place. place < length chars.now) run.now.places.items }
    requires most { All (λ place. slice_index levels.old.level.items place ≤ 125) run.now.places.items }
    ensures classes { IfOk result (λ _. levels.new.class.items ≡ sequence.classes_with chars.now levels.old run.now) }
    ensures levels { IfOk result (λ _. levels.new.level.items ≡ sequence.levels_with chars.now levels.old run.now) }
    ensures base { levels.new.base ≡ levels.old.base }
    ensures original { levels.new.original.items ≡ levels.old.original.items }
    ensures removed { levels.new.removed.items ≡ levels.old.removed.items }
    ensures unresolved { OnErr result ((levels.new.class.items ≡ levels.old.class.items) × (levels.new.level.items ≡ levels.old.level.items)) }
    ensures level_len { length levels.new.level.items ≡ length levels.old.level.items }
    ensures class_len { length levels.new.class.items ≡ length levels.old.class.items }
{
    let frame = Frame {
        level: level_of(&levels.level, &run.places),
        sos: run.sos,
        eos: run.eos,
    };
    let sequence = Sequence {
        chars,
        originals: &levels.original,
        classes: &levels.class,
        places: &run.places,
        frame,
    };
    let mut scratch = Scratch::new(alloc);
    resolve_classes(&mut scratch, &sequence)?;
    write_classes(&mut levels.class, &run.places, &scratch.classes);
    write_levels(&mut levels.level, &run.places, frame, &scratch.classes);
    Ok(())
}

/// What resolving one sequence takes memory for, to be used again for the next one.
#[derive(Drop)]
pub(crate) struct Scratch {
    /// The classes of the sequence.
    pub(crate) classes: ClassList,
    /// Its pairs of brackets.
    pairing: Pairing,
}

impl Scratch {
    pub(crate) fn new(alloc: Global) -> Scratch {
        Scratch {
            classes: Vec::new(alloc),
            pairing: Pairing::new(alloc),
        }
    }
}

/// The classes of a sequence by all rules.
pub(crate) fn resolve_classes(scratch: &mut Scratch, sequence: &Sequence) -> Result<(), AllocError>
    ensures classes { OnOk result (scratch.new.classes.items ≡ resolved_in sequence.now (classes_in sequence.now)) }
    ensures length { OnOk result (length scratch.new.classes.items ≡ length sequence.now.places.now) }
{
    read_classes(&mut scratch.classes, sequence)?;
    rules(&mut scratch.pairing, &mut scratch.classes, sequence)
}

/// All rules for classes, each over the whole sequence before the next.
#[tactic(auto, unfolding(crate::specs::Sequence::resolved))]
pub(crate) fn rules(
    pairing: &mut Pairing,
    classes: &mut [BidiClass],
    sequence: &Sequence,
) -> Result<(), AllocError>
    requires { length sequence.now.places.now ≡ length classes.old }
    ensures { IfOk result (λ _. classes.new ≡ resolved_in sequence.now classes.old) }
{
    weak(classes, sequence.frame.sos);
    neutral(pairing, classes, sequence)
}

// W1 to W7, where there is a class that they change.
#[tactic(auto, using(crate::proofs::Unchanged::weak_same))]
fn weak(classes: &mut [BidiClass], sos: BidiClass)
    ensures { classes.new ≡ sequence.weak sos classes.old }
{
    if has_weak(classes) {
        weak_rules(classes, sos);
    }
}

fn has_weak(classes: &[BidiClass]) -> bool
    ensures { result ≡ list_any sequence.is_changed_by_weak_rules classes.now }
{
    for class in classes {
        if is_changed_by_weak_rules(*class) {
            return true;
        }
    }
    false
}

fn is_changed_by_weak_rules(class: BidiClass) -> bool
    ensures { result ≡ sequence.is_changed_by_weak_rules class }
{
    matches!(class, AL | EN | ES | ET | CS | NSM)
}

#[tactic(auto, unfolding(crate::specs::Sequence::weak))]
fn weak_rules(classes: &mut [BidiClass], sos: BidiClass)
    ensures { classes.new ≡ sequence.weak sos classes.old }
{
    w1(classes, sos);
    w2(classes, sos);
    w3(classes);
    w4(classes);
    w5(classes);
    w6(classes);
    w7(classes, sos);
}

// N0 to N2, where there is a neutral.
#[tactic(auto, using(crate::proofs::Unchanged::neutral_same))]
fn neutral(
    pairing: &mut Pairing,
    classes: &mut [BidiClass],
    sequence: &Sequence,
) -> Result<(), AllocError>
    requires { length sequence.now.places.now ≡ length classes.old }
    ensures { IfOk result (λ _. classes.new ≡ neutrals.n2 sequence.now.frame.level (neutrals.n1 sequence.now.frame.sos sequence.now.frame.eos (brackets.n0 sequence.now.frame.level sequence.now.frame.sos (chars_in sequence.now) (originals_in sequence.now) classes.old))) }
{
    if has_neutral(classes) {
        n0(pairing, classes, sequence)?;
        n1_n2(classes, sequence.frame);
    }
    Ok(())
}

fn has_neutral(classes: &[BidiClass]) -> bool
    ensures { result ≡ list_any is_neutral classes.now }
{
    for class in classes {
        if class.is_neutral() {
            return true;
        }
    }
    false
}
