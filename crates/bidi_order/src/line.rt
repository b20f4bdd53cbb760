//! The order of a line of a bidi paragraph (UAX 9, 3.4), by the levels of the whole paragraph.

ghost use Rattle.bidi_order.specs.Line as line;
ghost use Rattle.bidi_order.specs.Line.{line_places, turned};
ghost use Rattle.bidi_resolve.specs.Places.{gathered};
ghost use Rattle.wm_chars.specs.Classes.{is_removed};
ghost use Rattle.wm_chars.specs.declared.classes.BidiClass.TheVariants.{L};
ghost use Rattle.std.specs.Prelude.{◌≡◌, ◌<◌, ◌≤◌, ◌++◌, [], ◌∷◌, cond, All, IfOk, OnOk, IsPermutation, length};

use crate::blanks::{have_level, reset};
use crate::places::Order;
use crate::reversals::order;
use bidi_explicit::{ClassList, LevelList, PlaceList};
use std::alloc::{AllocError, Global};
use wm_chars::BidiClass;

// A line in the lists of its bidi paragraph: the levels, the classes that the characters had before any rule, the base level,
// and the places of the line.
#[derive(Clone, Copy)]
struct LineText<'a> {
    levels: &'a [u8],
    classes: &'a [BidiClass],
    base: u8,
    places: &'a [usize],
    ghost each_class: { length levels.now ≡ length classes.now },
    ghost within: { All (λ p. p < length classes.now) places.now },
}

/// The order of one line of a bidi paragraph (UAX 9, L1 and L2): the places of its characters in the paragraph, from left
/// to right. The line has the places from `start` up to `stop` but those of what X9 removes. The levels are the resolved
/// ones of the whole paragraph with this base level, and the classes are those that its characters had before any rule.
#[tactic(auto, using(crate::proofs::BaseLine::of_base), unfolding(crate::specs::Line::line_order))]
pub fn line_order(
    alloc: Global,
    levels: &[u8],
    classes: &[BidiClass],
    base: u8,
    start: usize,
    stop: usize,
) -> Result<Order, AllocError>
    requires start { start ≤ stop }
    requires stop { stop ≤ length levels.now }
    requires classes { length levels.now ≡ length classes.now }
    ensures order { IfOk result (λ places. places.items ≡ line.line_order base levels.now classes.now start stop) }
    ensures rearranged { IfOk result (λ places. IsPermutation (line_places classes.now start stop) places.items) }
{
    let places = line_places(alloc, classes, start, stop)?;
    if have_level(&levels[start..stop], base) {
        let order = turned(places, base);
        Ok(order)
    } else {
        let text = LineText {
            levels,
            classes,
            base,
            places: &places,
        };
        let order = order_at(alloc, &text)?;
        Ok(order)
    }
}

// The order of a line that has these places, where all have the base level: L1 changes none, and L2 turns all round or none.
#[tactic(auto, using(crate::proofs::BaseLine::turned_rearranged))]
fn turned(places: PlaceList, base: u8) -> Order
    ensures order { result.items ≡ turned base places.items }
    ensures rearranged { IsPermutation places.items result.items }
{
    let mut order = places;
    if base % 2 == 1 {
        order.reverse();
    }
    order
}

// The order of a line, whatever its levels.
fn order_at(alloc: Global, text: &LineText) -> Result<Order, AllocError>
    ensures order { IfOk result (λ order. order.items ≡ line.order_at text.now.base text.now.levels.now text.now.classes.now text.now.places.now) }
    ensures rearranged { IfOk result (λ order. IsPermutation text.now.places.now order.items) }
{
    let line = levels_at(alloc, text)?;
    let mut order = order(alloc, &line)?;
    look_up(&mut order, text.places);
    Ok(order)
}

// The places of what X9 leaves in the line.
fn line_places(
    alloc: Global,
    classes: &[BidiClass],
    start: usize,
    stop: usize,
) -> Result<PlaceList, AllocError>
    requires start { start ≤ stop }
    requires stop { stop ≤ length classes.now }
    ensures places { IfOk result (λ places. places.items ≡ line_places classes.now start stop) }
    ensures within { IfOk result (λ places. All (λ p. p < length classes.now) places.items) }
{
    let mut places = Vec::with_capacity(alloc, stop - start)?;
    for place in start..stop {
        keep(&mut places, classes[place], place)?;
    }
    Ok(places)
}

// Takes the place of a character of this class, where it stays in the line.
fn keep(places: &mut PlaceList, class: BidiClass, place: usize) -> Result<(), AllocError>
    ensures { OnOk result (places.new.items ≡ places.old.items ++ cond (is_removed class) [] (place ∷ [])) }
{
    if !class.is_removed() {
        places.push(place)?;
    }
    Ok(())
}

// L1 at the places of a line.
fn levels_at(alloc: Global, text: &LineText) -> Result<LevelList, AllocError>
    ensures levels { IfOk result (λ out. out.items ≡ line.levels_at text.now.base text.now.levels.now text.now.classes.now text.now.places.now) }
    ensures length { IfOk result (λ out. length out.items ≡ length text.now.places.now) }
{
    let own = read_classes(alloc, text)?;
    let mut line = read_levels(alloc, text)?;
    reset(&mut line, &own, text.base);
    Ok(line)
}

fn read_classes(alloc: Global, text: &LineText) -> Result<ClassList, AllocError>
    ensures { IfOk result (λ out. out.items ≡ gathered L text.now.classes.now text.now.places.now) }
{
    let places = text.places;
    let classes = text.classes;
    let mut out = Vec::with_capacity(alloc, places.len())?;
    for place in places {
        out.push_reserved(classes[*place]);
    }
    Ok(out)
}

fn read_levels(alloc: Global, text: &LineText) -> Result<LevelList, AllocError>
    ensures { IfOk result (λ out. out.items ≡ gathered 0 text.now.levels.now text.now.places.now) }
{
    let places = text.places;
    let levels = text.levels;
    let mut out = Vec::with_capacity(alloc, places.len())?;
    for place in places {
        out.push_reserved(levels[*place]);
    }
    Ok(out)
}

// From places in the line to places in the paragraph.
#[tactic(auto, using(bidi_resolve::proofs::Passes::map_more))]
fn look_up(order: &mut Order, places: &[usize])
    requires { All (λ k. k < length places.now) order.old.items }
    ensures { order.new.items ≡ gathered 0 places.now order.old.items }
{
    for i in 0..order.len() {
        order[i] = places[order[i]];
    }
}
