//! The inline boxes of a paragraph: which stand round each of its items, and where each ends (CSS 2, 9.2.2).

ghost use Rattle.std.specs.Prelude.{◌≡◌, ◌+◌, ◌*◌, ◌<◌, ◌≤◌, ◌^◌, [], length, map, slice_index_or, IfOk, IfSome, unsigned_abs};
ghost use Rattle.fragment_types.specs.Item.{entries_of, entry_of};
ghost use Rattle.style_types.specs.Style.{IsBounded};
ghost use Rattle.para_lines.specs.Around.{box_at, box_by, chains, has, no_entry};
ghost use Rattle.para_lines.specs.Boxes as rule;
ghost use Rattle.para_lines.specs.Boxes.{AreBounded, AreEnds, Begins, HasBounds, apart, chain_at, chain_behind, round_of};

use fragment_types::Item;
use std::alloc::{AllocError, Global};
use std::marker::Model;
use style_types::Style;

/// What stands round an item of a paragraph.
#[derive(Clone, Copy)]
pub(crate) struct Round {
    /// The innermost inline box, by the place of its beginning.
    pub(crate) inside: Option<usize>,
    /// The lengths of `vertical-align` of all inline boxes together, in units of 1/64 px.
    pub(crate) shifts: i64,
}

/// Where an inline box ends, and whether it has its inline-end edges there.
#[derive(Clone, Copy)]
pub(crate) struct BoxEnd {
    pub(crate) place: usize,
    pub(crate) closes: bool,
}

// The end of the box that begins at each place.
type BoxEnds = Vec<BoxEnd>;

/// An inline box where it begins: its node and style, and whether it has edges there and at its end.
#[derive(Clone, Copy)]
pub(crate) struct Beginning {
    pub(crate) node: u32,
    pub(crate) style: Style,
    pub(crate) opens: bool,
    pub(crate) closes: bool,
}

/// What stands round each item of a paragraph, and where the box ends that begins there.
#[derive(Drop)]
pub(crate) struct Boxes<'a> {
    items: &'a [Item],
    rounds: Vec<Round>,
    ends: BoxEnds,
}

impl<'a> Model for Boxes<'a> {
    ghost use Rattle.std.specs.Prelude.{List};
    ghost use Rattle.fragment_types.specs.Item.{Entry, entries_of};
    ghost use Rattle.para_lines.specs.Boxes.{AreBoxes};

    ghost Value = { List Entry };

    ghost view = { λ boxes. entries_of boxes.items.now };

    ghost invariant = { λ boxes. AreBoxes (entries_of boxes.items.now) boxes.rounds.items boxes.ends.items };
}

/// Places of boxes in order.
pub(crate) type Places = Vec<usize>;

/// The boxes of a paragraph. Each item is looked at twice.
pub(crate) fn inline_boxes(alloc: Global, items: &[Item]) -> Result<Boxes<'_>, AllocError>
    requires { AreBounded (entries_of items.now) }
    ensures { IfOk result (λ made. made ≡ entries_of items.now) }
{
    let rounds = rounds(alloc, items)?;
    let ends = ends(alloc, items, &rounds)?;
    Ok(Boxes {
        items,
        rounds,
        ends,
    })
}

impl Boxes<'_> {
    /// How many items the paragraph has.
    pub(crate) fn count(&self) -> usize
        ensures { result ≡ length self.now }
    {
        self.items.len()
    }

    /// The boxes round an item that are not round another one, the innermost first. Looks at one box more than it gives.
    pub(crate) fn apart(
        &self,
        alloc: Global,
        place: usize,
        other: Option<usize>,
    ) -> Result<Places, AllocError>
        requires place { place < length self.now }
        requires other { IfSome other (λ other. other < length self.now) }
        ensures { IfOk result (λ made. made.items ≡ apart (chain_at self.now place) (chain_behind self.now other)) }
    {
        let mut places = Vec::new(alloc);
        let mut inside = self.rounds[place].inside;
        while let Some(beginning) = inside {
            if self.stands_round(beginning, other) {
                break;
            }
            places.push(beginning)?;
            inside = self.rounds[beginning].inside;
        }
        Ok(places)
    }

    /// The box that begins at a place.
    pub(crate) fn at(&self, place: usize) -> Beginning
        requires { place < length self.now }
        ensures node { result.node ≡ (box_at self.now place).node }
        ensures style { result.style ≡ (box_at self.now place).style }
        ensures opens { result.opens ≡ (box_at self.now place).opens }
        ensures closes { result.closes ≡ (box_at self.now place).closes }
        ensures bounded { IsBounded result.style }
    {
        let end = self.ends[place];
        beginning_of(&self.items[place], end.closes)
    }

    /// What stands round the item at a place.
    #[inline(always)]
    pub(crate) fn round(&self, place: usize) -> Round
        requires { place < length self.now }
        ensures is { result ≡ round_of self.now (chain_at self.now place) }
        ensures near { unsigned_abs result.shifts ≤ 2 ^ 53 }
    {
        self.rounds[place]
    }

    /// Whether a box stands round an item.
    pub(crate) fn stands_round(&self, beginning: usize, other: Option<usize>) -> bool
        requires begins { Begins (slice_index_or self.now beginning no_entry) }
        requires other { IfSome other (λ other. other < length self.now) }
        ensures { result ≡ has (chain_behind self.now other) beginning }
    {
        match other {
            None => false,
            Some(place) => beginning < place && place <= self.ends[beginning].place,
        }
    }
}

// An item where no box begins is as one of the initial style without edges.
fn beginning_of(item: &Item, closes: bool) -> Beginning
    requires { HasBounds (entry_of item.now) }
    ensures node { result.node ≡ (box_by (entry_of item.now) closes []).node }
    ensures style { result.style ≡ (box_by (entry_of item.now) closes []).style }
    ensures opens { result.opens ≡ (box_by (entry_of item.now) closes []).opens }
    ensures closes { result.closes ≡ closes }
    ensures bounded { IsBounded result.style }
{
    match item {
        Item::Open { node, style, opens } => Beginning {
            node: *node,
            style: **style,
            opens: *opens,
            closes,
        },
        Item::Text { .. } | Item::Close { .. } | Item::Atom { .. } | Item::Break { .. } => {
            Beginning {
                node: 0,
                style: Style::initial(),
                opens: false,
                closes,
            }
        }
    }
}

fn rounds(alloc: Global, items: &[Item]) -> Result<Vec<Round>, AllocError>
    requires { AreBounded (entries_of items.now) }
    ensures { IfOk result (λ made. made.items ≡ map (round_of (entries_of items.now)) (chains (entries_of items.now))) }
{
    let mut rounds = Vec::with_capacity(alloc, items.len())?;
    let mut round = Round {
        inside: None,
        shifts: 0,
    };
    for place in 0..items.len() {
        rounds.push(round)?;
        round = past(&items[place], place, round, &rounds);
    }
    Ok(rounds)
}

// What stands round the item behind this one.
fn past(item: &Item, place: usize, round: Round, rounds: &[Round]) -> Round
    requires bounds { HasBounds (entry_of item.now) }
    requires shifts { unsigned_abs round.shifts ≤ 2 ^ 53 }
    requires inside { IfSome round.inside (λ outer. outer < length rounds.now) }
    ensures { result ≡ rule.round_past place (entry_of item.now) round rounds.now }
{
    match item {
        Item::Open { style, .. } => Round {
            inside: Some(place),
            shifts: round.shifts + style.shift,
        },
        Item::Close { .. } => outer_round(round, rounds),
        Item::Text { .. } | Item::Atom { .. } | Item::Break { .. } => round,
    }
}

// What stands round the innermost box.
fn outer_round(round: Round, rounds: &[Round]) -> Round
    requires { IfSome round.inside (λ outer. outer < length rounds.now) }
    ensures { result ≡ rule.outer_round round.inside round rounds.now }
{
    match round.inside {
        Some(place) => rounds[place],
        None => round,
    }
}

fn ends(alloc: Global, items: &[Item], rounds: &[Round]) -> Result<BoxEnds, AllocError>
    requires { rounds.now ≡ map (round_of (entries_of items.now)) (chains (entries_of items.now)) }
    ensures { IfOk result (λ made. AreEnds (entries_of items.now) made.items) }
{
    let open_to_the_end = BoxEnd {
        place: items.len(),
        closes: false,
    };
    let mut ends = vec![in alloc; open_to_the_end; items.len()]?;
    let mut place = items.len();
    while place > 0 {
        place -= 1;
        mark_end(&mut ends, &items[place], place, rounds[place].inside);
    }
    Ok(ends)
}

// The innermost box ends where an item is an end.
fn mark_end(ends: &mut BoxEnds, item: &Item, place: usize, inside: Option<usize>)
    requires { IfSome inside (λ box. box < length ends.old.items) }
    ensures { ends.new.items ≡ rule.with_end place (entry_of item.now) inside ends.old.items }
{
    match item {
        Item::Close { closes, .. } => {
            if let Some(beginning) = inside {
                ends[beginning] = BoxEnd {
                    place,
                    closes: *closes,
                };
            }
        }
        Item::Open { .. } | Item::Text { .. } | Item::Atom { .. } | Item::Break { .. } => {}
    }
}
