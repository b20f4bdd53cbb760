//! The items of a paragraph as lines are filled with them (CSS 2, 9.4.2).

ghost use Rattle.std.specs.Prelude.{◌≡◌, ◌+◌, ◌-◌, ◌<◌, ◌≤◌, ◌^◌, ℤ, IfOk, IfSome, List, Option, length, drop, pos, slice_index_or, unsigned_abs};
ghost use Rattle.std.proofs.Props.{props};
ghost use Rattle.fragment_types.specs.Item.{Entry};
ghost use Rattle.fragment_types.specs.declared.breaking.Breaking.{Breaking};
ghost use Rattle.para_prepare.specs.declared.item.PreparedItem.{PreparedItem};
ghost use Rattle.para_lines.specs.Boxes.{apart, chain_at, chain_behind};
ghost use Rattle.para_lines.specs.Filling as rule;
ghost use Rattle.para_lines.specs.Filling.{fill_item, fill_items};
ghost use Rattle.para_lines.specs.Prepared.{AreSources, edge_of, edges_of, preparation_of, source_before, source_behind};
ghost use Rattle.para_lines.specs.Reach.{IsInlineSize};

use crate::boxes::Boxes;
use crate::edges::BoxEdges;
use crate::prepared::PreparedLists;
use line_fill::FillItem;
use para_prepare::{PreparedContent, PreparedItem};
use std::alloc::{AllocError, Global};
use wm_modes::FlowSide;

/// The two ends of an inline box.
#[derive(Clone, Copy, PartialEq, Eq)]
pub(crate) enum BoxSide {
    Start,
    End,
}

/// Items with the edges of boxes round them.
pub(crate) type FillItems = Vec<FillItem>;

/// What lines are filled with: the inline boxes of a paragraph, its items as they are prepared, and the inline size of its
/// containing block, where that is known.
#[derive(Clone, Copy)]
pub(crate) struct FillInput<'a> {
    pub(crate) boxes: &'a Boxes<'a>,
    pub(crate) lists: PreparedLists<'a>,
    pub(crate) inline: Option<i64>,

    ghost few: { length boxes.now ≤ 2 ^ 20 },
    ghost sources: { AreSources (length boxes.now) lists.items.now } by { Prim.hlevel props },
    ghost size: { IsInlineSize inline } by { Prim.hlevel props },
}

impl FillInput<'_> {
    /// The items of the paragraph, whose atoms advance so.
    #[inline(never)]
    pub(crate) fn items(&self, alloc: Global, advances: &[i64]) -> Result<FillItems, AllocError>
        ensures { IfOk result (λ made. made.items ≡ fill_items self.now.inline self.now.boxes.now (preparation_of self.now.lists) advances.now) }
    {
        if self.boxes.count() == 1 {
            let made = items_alone(alloc, &self.lists, advances)?;
            Ok(made)
        } else {
            let made = self.items_in_boxes(alloc, advances)?;
            Ok(made)
        }
    }

    // The items with the edges of the inline boxes round them.
    #[inline(never)]
    fn items_in_boxes(&self, alloc: Global, advances: &[i64]) -> Result<FillItems, AllocError>
        ensures { IfOk result (λ made. made.items ≡ fill_items self.now.inline self.now.boxes.now (preparation_of self.now.lists) advances.now) }
    {
        let mut made = Vec::with_capacity(alloc, self.lists.items.len())?;
        let mut advances = advances;
        for place in 0..self.lists.items.len() {
            made.push_reserved(self.item(place, advances));
            advances = past(&self.lists.items[place].what, advances);
        }
        Ok(made)
    }

    // An item with the edges of the boxes that begin before it and end behind it.
    fn item(&self, place: usize, advances: &[i64]) -> FillItem
        requires { place < length self.now.lists.items.now }
        ensures { (item : PreparedItem) (end_ : Breaking) → item ≡ slice_index_or self.now.lists.items.now place item → end_ ≡ slice_index_or self.now.lists.breaks.now place end_ → result ≡ fill_item self.now.inline self.now.boxes.now item end_ (chain_behind self.now.boxes.now (source_before self.now.lists.items.now place)) (chain_at self.now.boxes.now item.source) (chain_behind self.now.boxes.now (source_behind self.now.lists.items.now place)) (rule.advance_of item.what advances.now) }
    {
        let item = &self.lists.items[place];
        let source = item.source as usize;
        let before = self.lists.source_before(place);
        let after = self.lists.source_behind(place);
        FillItem {
            advance: advance_of(&item.what, advances),
            before: self.edges_apart(BoxSide::Start, source, before),
            after: self.edges_apart(BoxSide::End, source, after),
            space: is_space(&item.what),
            end: self.lists.breaks[place],
        }
    }

    // The edges on one side of the boxes round an item that are not round another one. What comes from the same item of the
    // paragraph stands in the same boxes.
    #[inline(always)]
    #[tactic(auto, using(crate::proofs::FillLaws::no_edges))]
    fn edges_apart(&self, side: BoxSide, source: usize, other: Option<usize>) -> i64
        requires source { source < length self.now.boxes.now }
        requires other { IfSome other (λ other. other < length self.now.boxes.now) }
        ensures { result ≡ edges_of self.now.inline self.now.boxes.now side (apart (chain_at self.now.boxes.now source) (chain_behind self.now.boxes.now other)) }
    {
        if other == Some(source) {
            0
        } else {
            self.edges_between(side, source, other)
        }
    }

    // The edges on one side of the boxes round an item that are not round another one, where both may come from different
    // items.
    #[inline(never)]
    fn edges_between(&self, side: BoxSide, source: usize, other: Option<usize>) -> i64
        requires source { source < length self.now.boxes.now }
        requires other { IfSome other (λ other. other < length self.now.boxes.now) }
        ensures { result ≡ edges_of self.now.inline self.now.boxes.now side (apart (chain_at self.now.boxes.now source) (chain_behind self.now.boxes.now other)) }
    {
        let mut edges = 0;
        let mut inside = self.boxes.round(source).inside;
        while let Some(beginning) = inside {
            if self.boxes.stands_round(beginning, other) {
                break;
            }
            edges += self.edge_of(side, beginning);
            inside = self.boxes.round(beginning).inside;
        }
        edges
    }

    // The edge of a box on one side, where it has one there.
    fn edge_of(&self, side: BoxSide, place: usize) -> i64
        requires { place < length self.now.boxes.now }
        ensures value { result ≡ edge_of self.now.inline self.now.boxes.now side place }
        ensures near { unsigned_abs result ≤ 2 ^ 34 }
    {
        let own = self.boxes.at(place);
        let edges = BoxEdges {
            style: &own.style,
            inline: self.inline,
        };
        match side {
            BoxSide::Start => {
                if own.opens {
                    edges.inline_edge(FlowSide::InlineStart)
                } else {
                    0
                }
            }
            BoxSide::End => {
                if own.closes {
                    edges.inline_edge(FlowSide::InlineEnd)
                } else {
                    0
                }
            }
        }
    }
}

// The items that lines are filled with in a paragraph of one item, as most are, which stands in no inline box.
#[inline(never)]
fn items_alone(
    alloc: Global,
    lists: &PreparedLists,
    advances: &[i64],
) -> Result<FillItems, AllocError>
    requires { AreSources 1 lists.now.items.now }
    ensures { IfOk result (λ made. (inline : Option ℤ) (entries : List Entry) → length entries ≡ 1 → made.items ≡ fill_items inline entries (preparation_of lists.now) advances.now) }
{
    let mut made = Vec::with_capacity(alloc, lists.items.len())?;
    let mut advances = advances;
    for place in 0..lists.items.len() {
        made.push_reserved(item_alone(lists, place, advances));
        advances = past(&lists.items[place].what, advances);
    }
    Ok(made)
}

// A prepared item in a paragraph of one item: no box begins before it or ends behind it.
fn item_alone(lists: &PreparedLists, place: usize, advances: &[i64]) -> FillItem
    requires sources { AreSources 1 lists.now.items.now }
    requires place { place < length lists.now.items.now }
    ensures { (inline : Option ℤ) (entries : List Entry) (item : PreparedItem) (end_ : Breaking) → length entries ≡ 1 → item ≡ slice_index_or lists.now.items.now place item → end_ ≡ slice_index_or lists.now.breaks.now place end_ → result ≡ fill_item inline entries item end_ (chain_behind entries (source_before lists.now.items.now place)) (chain_at entries item.source) (chain_behind entries (source_behind lists.now.items.now place)) (rule.advance_of item.what advances.now) }
{
    let item = &lists.items[place];
    FillItem {
        advance: advance_of(&item.what, advances),
        before: 0,
        after: 0,
        space: is_space(&item.what),
        end: lists.breaks[place],
    }
}

/// How far an item advances, where these are the advances of the atoms from it on. Most items are units.
#[inline(always)]
pub(crate) fn advance_of(what: &PreparedContent, advances: &[i64]) -> i64
    ensures { result ≡ rule.advance_of what.now advances.now }
{
    match what {
        PreparedContent::Unit { advance, .. } => *advance,
        PreparedContent::Combined { .. }
        | PreparedContent::Atom { .. }
        | PreparedContent::Break { .. } => other_advance(what, advances),
    }
}

// How far an item that is no unit advances, where these are the advances of the atoms from it on.
#[inline(never)]
fn other_advance(what: &PreparedContent, advances: &[i64]) -> i64
    ensures { result ≡ rule.advance_of what.now advances.now }
{
    match what {
        PreparedContent::Unit { advance, .. } | PreparedContent::Combined { advance, .. } => {
            *advance
        }
        PreparedContent::Atom { .. } => first_advance(advances),
        PreparedContent::Break { .. } => 0,
    }
}

fn first_advance(advances: &[i64]) -> i64
    ensures { result ≡ slice_index_or advances.now 0 (pos 0) }
{
    if advances.is_empty() { 0 } else { advances[0] }
}

/// The atoms behind an item, of those from it on.
pub(crate) fn past<'a, T>(what: &PreparedContent, atoms: &'a [T]) -> &'a [T]
    ensures { result.now ≡ rule.past what.now atoms.now }
{
    match what {
        PreparedContent::Atom { .. } => without_first(atoms),
        PreparedContent::Unit { .. }
        | PreparedContent::Combined { .. }
        | PreparedContent::Break { .. } => atoms,
    }
}

fn without_first<T>(atoms: &[T]) -> &[T]
    ensures { result.now ≡ drop 1 atoms.now }
{
    if atoms.is_empty() { atoms } else { &atoms[1..] }
}

/// Whether an item is a space.
pub(crate) fn is_space(what: &PreparedContent) -> bool
    ensures { result ≡ rule.is_space what.now }
{
    match what {
        PreparedContent::Unit { space, .. } => *space,
        PreparedContent::Combined { .. }
        | PreparedContent::Atom { .. }
        | PreparedContent::Break { .. } => false,
    }
}
