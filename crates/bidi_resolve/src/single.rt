//! A paragraph in which nothing embeds, overrides or isolates: it is one isolating run sequence on its base level (UAX 9, X10).

ghost use Rattle.bidi_resolve.specs.Neutral.{i1_i2};
ghost use Rattle.bidi_resolve.specs.Paragraph.{IsResolvedLevel};
ghost use Rattle.bidi_resolve.specs.Single as single;
ghost use Rattle.std.specs.List.{list_all, range_with_len};
ghost use Rattle.std.specs.Prelude.{◌≡◌, ◌<◌, All, IfOk, length};

use crate::isolating::{Frame, Sequence};
use crate::neutral::{direction, raised};
use crate::pairing::Pairing;
use crate::sequence::rules;
use crate::text::Text;
use bidi_explicit::{LevelList, PlaceList};
use std::alloc::{AllocError, Global};
use wm_chars::BidiClass;
use wm_chars::BidiClass::{AL, AN, B, CS, EN, ES, ET, L, NSM, ON, R, S, WS};

/// Whether none of these classes embeds, overrides or isolates.
#[inline(never)]
pub(crate) fn are_plain(classes: &[BidiClass]) -> bool
    ensures { result ≡ list_all single.is_plain classes.now }
{
    let mut all = true;
    for class in classes {
        all &= is_plain(*class);
    }
    all
}

fn is_plain(class: BidiClass) -> bool
    ensures { result ≡ single.is_plain class }
{
    matches!(
        class,
        L | R | AL | EN | ES | ET | AN | CS | NSM | B | S | WS | ON
    )
}

/// The levels of such a paragraph.
#[tactic(auto, unfolding(crate::specs::Single::single_levels), using(crate::proofs::LengthLaws::length_resolved))]
pub(crate) fn single_levels(alloc: Global, text: &Text) -> Result<LevelList, AllocError>
    ensures levels { IfOk result (λ levels. levels.items ≡ single.single_levels text.now.chars.now text.now.classes.now text.now.base) }
    ensures length { IfOk result (λ levels. length levels.items ≡ length text.now.classes.now) }
    ensures between { IfOk result (λ levels. All (IsResolvedLevel text.now.base) levels.items) }
{
    let places = all_places(alloc, text.classes.len())?;
    let side = direction(text.base);
    let frame = Frame {
        level: text.base,
        sos: side,
        eos: side,
    };
    let sequence = Sequence {
        chars: text.chars,
        originals: text.classes,
        classes: text.classes,
        places: &places,
        frame,
    };
    let mut pairing = Pairing::new(alloc);
    let mut own = Vec::from_slice(alloc, text.classes)?;
    rules(&mut pairing, &mut own, &sequence)?;
    raised_levels(alloc, frame, &own)
}

// So many places in their order.
#[tactic(auto, using(crate::proofs::OneSequence::range_long))]
fn all_places(alloc: Global, count: usize) -> Result<PlaceList, AllocError>
    ensures are { IfOk result (λ places. places.items ≡ range_with_len 0 count) }
    ensures many { IfOk result (λ places. length places.items ≡ count) }
    ensures within { IfOk result (λ places. All (λ place. place < count) places.items) }
{
    let mut places = Vec::from_elem(alloc, 0, count)?;
    write_places(&mut places);
    Ok(places)
}

#[tactic(auto, using(crate::proofs::OneSequence::range_written))]
fn write_places(places: &mut [usize])
    ensures { places.new ≡ range_with_len 0 (length places.old) }
{
    for place in 0..places.len() {
        places[place] = place;
    }
}

// I1 and I2.
fn raised_levels(
    alloc: Global,
    frame: Frame,
    classes: &[BidiClass],
) -> Result<LevelList, AllocError>
    ensures are { IfOk result (λ levels. levels.items ≡ i1_i2 frame.level classes.now) }
    ensures length { IfOk result (λ levels. length levels.items ≡ length classes.now) }
    ensures between { IfOk result (λ levels. All (IsResolvedLevel frame.level) levels.items) }
{
    let mut levels = Vec::from_elem(alloc, frame.level, classes.len())?;
    raise(&mut levels, frame, classes);
    Ok(levels)
}

#[tactic(auto, using(bidi_explicit::proofs::Writing::written_more))]
fn raise(levels: &mut [u8], frame: Frame, classes: &[BidiClass])
    requires { length levels.old ≡ length classes.now }
    ensures { levels.new ≡ i1_i2 frame.level classes.now }
{
    for i in 0..classes.len() {
        levels[i] = raised(frame, classes[i]);
    }
}
