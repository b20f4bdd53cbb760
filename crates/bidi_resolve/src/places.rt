//! The places of an isolating run sequence in the lists of its paragraph.

ghost use Rattle.bidi_resolve.specs.Neutral.{i1_i2};
ghost use Rattle.bidi_resolve.specs.Isolating.{classes_in};
ghost use Rattle.bidi_resolve.specs.Places.{run_level, scattered};
ghost use Rattle.std.specs.Prelude.{◌≡◌, ◌<◌, ◌≤◌, All, OnOk, length, slice_index};

use crate::isolating::{Frame, Sequence};
use crate::neutral::raised;
use bidi_explicit::ClassList;
use std::alloc::AllocError;
use wm_chars::BidiClass;

/// The classes of a sequence as X1 to X9 leave them, in place of what the list has.
pub(crate) fn read_classes(out: &mut ClassList, sequence: &Sequence) -> Result<(), AllocError>
    ensures { OnOk result (out.new.items ≡ classes_in sequence.now) }
{
    let places = sequence.places;
    let classes = sequence.classes;
    out.clear();
    out.reserve(places.len())?;
    for place in places {
        out.push_reserved(classes[*place]);
    }
    Ok(())
}

/// The level of a sequence: that of its first character.
pub(crate) fn level_of(levels: &[u8], places: &[usize]) -> u8
    requires places { All (λ place. place < length levels.now) places.now }
    requires most { All (λ place. slice_index levels.now place ≤ 125) places.now }
    ensures is { result ≡ run_level levels.now places.now }
    ensures most { result ≤ 125 }
{
    if places.is_empty() {
        0
    } else {
        levels[places[0]]
    }
}

/// Writes the classes of a sequence to its places.
pub(crate) fn write_classes(classes: &mut [BidiClass], places: &[usize], new: &[BidiClass])
    requires places { All (λ place. place < length classes.old) places.now }
    requires new { length new.now ≡ length places.now }
    ensures { classes.new ≡ scattered places.now new.now classes.old }
{
    for k in 0..places.len() {
        classes[places[k]] = new[k];
    }
}

/// Raises the levels at these places by their classes.
pub(crate) fn write_levels(levels: &mut [u8], places: &[usize], frame: Frame, classes: &[BidiClass])
    requires places { All (λ place. place < length levels.old) places.now }
    requires classes { length classes.now ≡ length places.now }
    ensures { levels.new ≡ scattered places.now (i1_i2 frame.level classes.now) levels.old }
{
    for k in 0..places.len() {
        levels[places[k]] = raised(frame, classes[k]);
    }
}
