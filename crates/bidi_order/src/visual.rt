//! The visual order of a line's items, where what stands between two of them and is no item parts them (UAX 9, X9 and
//! L2).

ghost use Rattle.std.specs.Prelude.{◌≡◌, ◌<◌, ◌++◌, [], ◌∷◌, Some, None, length, map, slice_index_or, All, IfOk, IsPermutation, OnOk};
ghost use Rattle.std.specs.List.{filter_map, list_all, range_with_len};
ghost use Rattle.bidi_order.specs.Visual.{parting, parts_nothing, seat, seats, visual_order, within_line};

use crate::places::Order;
use crate::reversals::{all_places, greatest, order};
use std::alloc::{AllocError, Global};

// The levels of a line's items after L1, and what parts each from the item before it.
#[derive(Clone, Copy)]
struct LineItems<'a> {
    levels: &'a [u8],
    aparts: &'a [Option<u8>],
    ghost each_apart: { length levels.now ≡ length aparts.now },
}

// A place of the list that L2 orders, with its level: an item, or what parts two items.
#[derive(Clone, Copy)]
struct Seat {
    level: u8,
    item: Option<usize>,
}

type Seats = Vec<Seat>;

/// The places of a line's items from left to right, by their levels after L1. `aparts` has for each item the least level of
/// the bidi controls between it and the item before it that X9 leaves in the line, or none; that of the first item of a
/// line counts nothing. L2 orders the list in which these levels stand between the items; they are then left out.
pub fn visual_order(
    alloc: Global,
    levels: &[u8],
    aparts: &[Option<u8>],
) -> Result<Order, AllocError>
    requires { length levels.now ≡ length aparts.now }
    ensures order { IfOk result (λ places. places.items ≡ visual_order levels.now aparts.now) }
    ensures rearranged { IfOk result (λ places. IsPermutation (range_with_len 0 (length levels.now)) places.items) }
    ensures below { IfOk result (λ places. All (λ p. p < length levels.now) places.items) }
{
    if greatest(levels) == 0 {
        let places = all_places(alloc, levels.len())?;
        Ok(places)
    } else if are_together(aparts) {
        let places = order(alloc, levels)?;
        Ok(places)
    } else {
        let places = seated_order(alloc, &LineItems { levels, aparts })?;
        Ok(places)
    }
}

// Whether nothing parts two items of the line.
fn are_together(aparts: &[Option<u8>]) -> bool
    ensures { result ≡ list_all parts_nothing (within_line aparts.now) }
{
    match aparts.split_first() {
        Some((_, others)) => part_nothing(others),
        None => true,
    }
}

fn part_nothing(aparts: &[Option<u8>]) -> bool
    ensures { result ≡ list_all parts_nothing aparts.now }
{
    aparts.iter().all(
        |apart| -> bool
            ensures { result ≡ parts_nothing apart.now }
        { parts_nothing(*apart) },
    )
}

fn parts_nothing(apart: Option<u8>) -> bool
    ensures { result ≡ parts_nothing apart }
{
    match apart {
        None => true,
        Some(_) => false,
    }
}

// The places of a line's items from left to right, whatever their levels: L2 orders the list of the items and of what
// parts them, and what parts them is left out.
#[tactic(auto, unfolding(crate::specs::Visual::visual_order))]
fn seated_order(alloc: Global, line: &LineItems) -> Result<Order, AllocError>
    ensures order { IfOk result (λ places. places.items ≡ visual_order line.now.levels.now line.now.aparts.now) }
    ensures rearranged { IfOk result (λ places. IsPermutation (range_with_len 0 (length line.now.levels.now)) places.items) }
    ensures below { IfOk result (λ places. All (λ p. p < length line.now.levels.now) places.items) }
{
    let seats = seats(alloc, line)?;
    let own = seat_levels(alloc, &seats)?;
    let order = order(alloc, &own)?;
    let places = items_of(alloc, &seats, &order)?;
    Ok(places)
}

fn seats(alloc: Global, line: &LineItems) -> Result<Seats, AllocError>
    ensures { IfOk result (λ made. made.items ≡ seats line.now.levels.now line.now.aparts.now) }
{
    let levels = line.levels;
    let aparts = line.aparts;
    let mut seats = Vec::with_capacity(alloc, levels.len())?;
    for i in 0..levels.len() {
        add_seat(&mut seats, apart_within(aparts, i), levels[i], i)?;
    }
    Ok(seats)
}

// What parts the item from the one before it on the line.
fn apart_within(aparts: &[Option<u8>], i: usize) -> Option<u8>
    requires { i < length aparts.now }
    ensures { result ≡ slice_index_or (within_line aparts.now) i None }
{
    if i == 0 { None } else { aparts[i] }
}

fn add_seat(seats: &mut Seats, apart: Option<u8>, level: u8, item: usize) -> Result<(), AllocError>
    ensures { OnOk result (seats.new.items ≡ seats.old.items ++ parting apart (seat level (Some item) ∷ [])) }
{
    if let Some(apart) = apart {
        seats.push(Seat {
            level: apart,
            item: None,
        })?;
    }
    seats.push(Seat {
        level,
        item: Some(item),
    })?;
    Ok(())
}

fn seat_levels(alloc: Global, seats: &[Seat]) -> Result<Vec<u8>, AllocError>
    ensures { IfOk result (λ levels. levels.items ≡ map (λ seat. seat.level) seats.now) }
{
    seats.iter().map(|seat| seat.level).collect(alloc)
}

// The items alone, in this order of the seats.
fn items_of(alloc: Global, seats: &[Seat], order: &[usize]) -> Result<Order, AllocError>
    requires { All (λ p. p < length seats.now) order.now }
    ensures { IfOk result (λ places. places.items ≡ filter_map (λ p. (slice_index_or seats.now p (seat 0 None)).item) order.now) }
{
    let mut places = Vec::with_capacity(alloc, order.len())?;
    for place in order {
        add_item(&mut places, seats[*place].item)?;
    }
    Ok(places)
}

fn add_item(places: &mut Order, item: Option<usize>) -> Result<(), AllocError>
    ensures { OnOk result (places.new.items ≡ places.old.items ++ filter_map (λ x. x) (item ∷ [])) }
{
    if let Some(place) = item {
        places.push(place)?;
    }
    Ok(())
}
