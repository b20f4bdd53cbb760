//! The resolved levels of a bidi paragraph, by all rules of UAX 9 up to I2.

ghost use Rattle.bidi_explicit.specs.Paragraph.{IsBetween};
ghost use Rattle.bidi_explicit.specs.Base.{base_of};
ghost use Rattle.bidi_resolve.specs.Paragraph as paragraph;
ghost use Rattle.bidi_resolve.specs.Isolating.{levels_in};
ghost use Rattle.bidi_resolve.specs.Paragraph.{IsResolvedLevel};
ghost use Rattle.bidi_resolve.specs.Places.{scattered};
ghost use Rattle.bidi_resolve.specs.Runs.{resolved_runs};
ghost use Rattle.std.specs.List.{list_any};
ghost use Rattle.std.specs.Prelude.{◌≡◌, ◌≤◌, All, IfOk, IfSome, length, map};

use crate::alone::alone;
use crate::isolating::{Frame, Sequence};
use crate::neutral::raised;
use crate::places::{level_of, write_levels};
use crate::runs::ParagraphRuns;
use crate::sequence::{Scratch, resolve_classes};
use crate::single::{are_plain, single_levels};
use crate::text::Text;
use bidi_explicit::{ClassList, LevelList, base_of, flat_runs, levels};
use std::alloc::{AllocError, Global};
use wm_chars::BidiClass::{AL, AN, R};
use wm_chars::{BidiClass, bidi_class};

/// The resolved levels of a text that is one bidi paragraph, by all rules of UAX 9 up to I2: with this base level, 0 or
/// 1, or with the one that P2 and P3 give. What isn't in the repertoire counts as ON.
#[tactic(auto, unfolding(crate::specs::Paragraph::text_levels))]
pub fn text_levels(alloc: Global, chars: &[char], base: Option<u8>) -> Result<LevelList, AllocError>
    requires { IfSome base (λ base. base ≤ 1) }
    ensures levels { IfOk result (λ levels. levels.items ≡ paragraph.text_levels chars.now base) }
    ensures length { IfOk result (λ levels. length levels.items ≡ length chars.now) }
    ensures between { IfOk result (λ levels. All (IsResolvedLevel (base_of base (paragraph.classes_of chars.now))) levels.items) }
{
    let classes = text_classes(alloc, chars)?;
    paragraph_levels(alloc, chars, &classes, base_of(base, &classes))
}

/// The bidi classes of characters. What isn't in the repertoire counts as ON.
pub fn text_classes(alloc: Global, chars: &[char]) -> Result<ClassList, AllocError>
    ensures classes { IfOk result (λ classes. classes.items ≡ paragraph.classes_of chars.now) }
    ensures length { IfOk result (λ classes. length classes.items ≡ length chars.now) }
{
    let mut classes = Vec::from_elem(alloc, BidiClass::ON, chars.len())?;
    write_classes(&mut classes, chars);
    Ok(classes)
}

#[tactic(auto, using(bidi_explicit::proofs::Writing::written_more))]
fn write_classes(classes: &mut [BidiClass], chars: &[char])
    requires { length classes.old ≡ length chars.now }
    ensures { classes.new ≡ paragraph.classes_of chars.now }
{
    for i in 0..chars.len() {
        classes[i] = bidi_class(chars[i]).unwrap_or(BidiClass::ON);
    }
}

/// The resolved levels of a bidi paragraph of these characters and classes with this base level, 0 or 1, by the rules
/// X1 to X10, W1 to W7, N0 to N2, I1 and I2 of UAX 9. The characters count for brackets alone.
pub fn paragraph_levels(
    alloc: Global,
    chars: &[char],
    classes: &[BidiClass],
    base: u8,
) -> Result<LevelList, AllocError>
    requires base { base ≤ 1 }
    requires chars { length chars.now ≡ length classes.now }
    ensures levels { IfOk result (λ levels. levels.items ≡ paragraph.paragraph_levels chars.now classes.now base) }
    ensures length { IfOk result (λ levels. length levels.items ≡ length classes.now) }
    ensures between { IfOk result (λ levels. All (IsResolvedLevel base) levels.items) }
{
    let text = Text {
        chars,
        classes,
        base,
    };
    if !are_plain(classes) {
        return by_all_rules(alloc, &text);
    }
    if base == 0 && !has_right(classes) {
        let zeros = Vec::from_elem(alloc, 0, classes.len())?;
        return Ok(zeros);
    }
    single_levels(alloc, &text)
}

// Whether one of the classes runs from right to left or is that of an Arabic number.
#[inline(never)]
fn has_right(classes: &[BidiClass]) -> bool
    ensures { result ≡ list_any paragraph.is_right classes.now }
{
    let mut has = false;
    for class in classes {
        has |= is_right(*class);
    }
    has
}

fn is_right(class: BidiClass) -> bool
    ensures { result ≡ paragraph.is_right class }
{
    (class == R) | (class == AL) | (class == AN)
}

// The levels of any paragraph.
#[tactic(auto, unfolding(crate::specs::Paragraph::paragraph_levels))]
fn by_all_rules(alloc: Global, text: &Text) -> Result<LevelList, AllocError>
    ensures levels { IfOk result (λ levels. levels.items ≡ paragraph.paragraph_levels text.now.chars.now text.now.classes.now text.now.base) }
    ensures length { IfOk result (λ levels. length levels.items ≡ length text.now.classes.now) }
    ensures between { IfOk result (λ levels. All (IsResolvedLevel text.now.base) levels.items) }
{
    let levels = levels(alloc, text.classes, text.base)?;
    let runs = flat_runs(alloc, &levels)?;
    let paragraph = ParagraphRuns {
        chars: text.chars,
        levels: &levels,
        runs: &runs,
    };
    with_runs(alloc, &paragraph)
}

// The levels of a paragraph, where its sequences are resolved.
fn with_runs(alloc: Global, paragraph: &ParagraphRuns) -> Result<LevelList, AllocError>
    ensures levels { IfOk result (λ out. out.items ≡ resolved_runs paragraph.now paragraph.now.levels.now.level.items) }
    ensures length { IfOk result (λ out. length out.items ≡ length paragraph.now.chars.now) }
{
    let mut out = Vec::from_slice(alloc, &paragraph.levels.level)?;
    write_runs(alloc, paragraph, &mut out)?;
    Ok(out)
}

// Writes the levels of the sequences.
#[tactic(auto, unfolding(crate::specs::Sequence::sequence_levels, crate::specs::Sequence::sequence_classes))]
fn write_runs(alloc: Global, paragraph: &ParagraphRuns, out: &mut [u8]) -> Result<(), AllocError>
    requires { length out.old ≡ length paragraph.now.chars.now }
    ensures { IfOk result (λ _. out.new ≡ resolved_runs paragraph.now out.old) }
{
    let mut scratch = Scratch::new(alloc);
    for span in &paragraph.runs.spans {
        let places = &paragraph.runs.places[span.start..span.stop];
        let frame = Frame {
            level: level_of(&paragraph.levels.level, places),
            sos: span.sos,
            eos: span.eos,
        };
        let sequence = Sequence {
            chars: paragraph.chars,
            originals: &paragraph.levels.original,
            classes: &paragraph.levels.class,
            places,
            frame,
        };
        write_run(&mut scratch, &sequence, out)?;
    }
    Ok(())
}

// Writes the levels of one sequence, which is resolved by itself on the levels and classes as X1 to X9 leave them.
#[tactic(auto, using(crate::proofs::AloneLaws::alone_written))]
fn write_run(scratch: &mut Scratch, sequence: &Sequence, out: &mut [u8]) -> Result<(), AllocError>
    requires { length out.old ≡ length sequence.now.chars.now }
    ensures { IfOk result (λ _. out.new ≡ scattered sequence.now.places.now (levels_in sequence.now) out.old) }
{
    let places = sequence.places;
    let frame = sequence.frame;
    if places.len() == 1 {
        let place = places[0];
        let class = alone(sequence.classes[place], frame);
        out[place] = raised(frame, class);
        return Ok(());
    }
    resolve_classes(scratch, sequence)?;
    write_levels(out, places, frame, &scratch.classes);
    Ok(())
}
