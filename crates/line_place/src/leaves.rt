//! The items of a line from line-left (CSS Text 3, 4.1.2; UAX 9, 3.4).

ghost use Rattle.std.specs.Prelude.{◌≡◌, ℕ, ◌+◌, ◌<◌, ◌≤◌, leb, length, map, take, drop, slice_get, Some, IfOk};
ghost use Rattle.std.specs.List.{All};
ghost use Rattle.line_place.specs.Leaves.{are_spaces, leaf_in, nth_leaf, what_of, seen, leaves, leaves_from, levels_of, in_logical_order};
ghost use Rattle.line_place.specs.Line.{line_in};
ghost use Rattle.line_place.specs.Marks.{inside_of};
ghost use Rattle.line_place.specs.Placing as rule;
ghost use Rattle.line_place.specs.Reach.{item_reach, leaf_reach, total};
ghost use Rattle.line_place.specs.Runs.{goes_on};

use crate::line::{LineContent, LineFrame};
use crate::runs::follows;
use crate::source::LineSource;
use bidi_explicit::{ClassList, LevelList};
use bidi_order::laws::level_zero_stays;
use bidi_order::{reset, visual_order};
use fragment_types::{Glyphs, RunUnit};
use std::alloc::{AllocError, Global};
use std::marker::Model;

/// An item of a line: its place in logical order, its level after L1, and whether it is a Space at the end of the line, which
/// has no extent there and isn't seen.
#[derive(Clone, Copy)]
pub(crate) struct Leaf {
    pub(crate) place: usize,
    pub(crate) level: u8,
    pub(crate) hangs: bool,
}

pub(crate) type LeafList = Vec<Leaf>;

type Aparts = Vec<Option<u8>>;

/// Leaves that stand side by side on a line, with the source that their items are read from.
#[derive(Drop)]
pub(crate) struct LeafSlice<'a, S: LineSource> {
    source: &'a S,
    list: &'a [Leaf],
}

impl<'a, S: LineSource> Model for LeafSlice<'a, S> {
    ghost use Rattle.std.specs.Prelude.{◌<◌, List, length, map};
    ghost use Rattle.std.specs.List.{All};
    ghost use Rattle.std.specs.Coded.{codes};
    ghost use Rattle.line_place.specs.Leaves.{Leaf as SeenLeaf, leaf_in};
    ghost use Rattle.line_place.specs.PieceCode.{pieces_code};

    ghost Value = { List SeenLeaf };

    ghost coded = { Prim.hlevel (codes, pieces_code (Prim.hlevel codes)) };

    ghost view = { λ l. map (leaf_in (S.items l.source.now)) l.list.now };

    ghost invariant = { λ l. All (λ leaf. leaf.place < length (S.items l.source.now)) l.list.now };
}

impl<'a, S: LineSource> LeafSlice<'a, S> {
    /// The leaves of a list, by the places of their items in the source.
    pub(crate) fn of_list(source: &'a S, list: &'a [Leaf]) -> LeafSlice<'a, S>
        requires { All (λ leaf. leaf.place < length (S.items source.now)) list.now }
        ensures { result ≡ map (leaf_in (S.items source.now)) list.now }
    {
        LeafSlice { source, list }
    }

    /// All of them once more.
    pub(crate) fn same_leaves(&self) -> LeafSlice<'a, S>
        ensures { result ≡ self.now }
    {
        LeafSlice {
            source: self.source,
            list: self.list,
        }
    }

    /// How many they are.
    #[inline(always)]
    pub(crate) fn len(&self) -> usize
        ensures { result ≡ length self.now }
    {
        self.list.len()
    }

    /// Those from a place on.
    pub(crate) fn rest_from(&self, start: usize) -> LeafSlice<'a, S>
        requires { start ≤ length self.now }
        ensures { result ≡ drop start self.now }
    {
        let (_, list) = self.list.split_at(start);
        LeafSlice {
            source: self.source,
            list,
        }
    }

    /// The first ones.
    pub(crate) fn front_of(&self, count: usize) -> LeafSlice<'a, S>
        requires { count ≤ length self.now }
        ensures { result ≡ take count self.now }
    {
        LeafSlice {
            source: self.source,
            list: &self.list[..count],
        }
    }

    /// The level of the first one.
    pub(crate) fn first_level(&self) -> u8
        ensures { result ≡ rule.level_of self.now }
    {
        if self.list.is_empty() {
            0
        } else {
            self.list[0].level
        }
    }

    /// The innermost inline box round the first one.
    pub(crate) fn first_inside(&self) -> Option<usize>
        ensures { result ≡ inside_of self.now }
    {
        if self.list.is_empty() {
            None
        } else {
            self.source.item(self.list[0].place).inside
        }
    }

    /// What is seen of the first one.
    pub(crate) fn first_what(&self) -> Option<LineContent<'a>>
        ensures { seen result ≡ what_of self.now }
    {
        let list = self.list;
        if list.is_empty() {
            None
        } else {
            let Leaf { place, hangs, .. } = list[0];
            if hangs {
                None
            } else {
                Some(self.source.item(place).what)
            }
        }
    }

    /// The extent of one along the line.
    #[inline(always)]
    pub(crate) fn extent_at(&self, k: usize) -> i64
        requires { k < length self.now }
        ensures { result ≡ (nth_leaf self.now k).extent }
    {
        let list = self.list;
        let leaf = list[k];
        if leaf.hangs {
            0
        } else {
            self.source.item(leaf.place).extent
        }
    }

    /// One as a unit of its run. Of what hangs nothing is seen.
    #[inline(always)]
    pub(crate) fn unit_at(&self, alloc: Global, k: usize) -> Result<RunUnit, AllocError>
        requires { k < length self.now }
        ensures { IfOk result (λ made. made ≡ rule.unit_of (nth_leaf self.now k)) }
    {
        let list = self.list;
        let leaf = list[k];
        if leaf.hangs {
            RunUnit::new(alloc, 0, 0, 0, &Glyphs::none())
        } else {
            let made = self.source.unit(alloc, leaf.place)?;
            Ok(made)
        }
    }

    /// Whether a run goes on from one to the next. Levels and places tell most runs apart, and need no look at the items.
    #[inline(always)]
    pub(crate) fn goes_on_at(&self, k: usize) -> bool
        requires { k + 1 < length self.now }
        ensures { result ≡ goes_on (nth_leaf self.now k) (nth_leaf self.now (k + 1)) }
    {
        let list = self.list;
        let (leaf, next) = (list[k], list[k + 1]);
        leaf.level == next.level
            && follows(leaf.level, leaf.place, next.place)
            && !leaf.hangs
            && !next.hangs
            && self.source.stand_alike(leaf.place, next.place)
    }
}

/// The items of a line from line-left.
pub(crate) fn leaves<S: LineSource>(
    alloc: Global,
    frame: &LineFrame,
    source: &S,
) -> Result<LeafList, AllocError>
    ensures are { IfOk result (λ made. map (leaf_in (S.items source.now)) made.items ≡ leaves (line_in frame.now (S.items source.now))) }
    ensures within { IfOk result (λ made. All (λ leaf. leaf.place < length (S.items source.now)) made.items) }
    ensures reach { IfOk result (λ made. total leaf_reach (map (leaf_in (S.items source.now)) made.items) ≤ total item_reach (S.items source.now)) }
{
    // A line of level 0 throughout stands in visual order already, so neither L1 nor L2 nor their lists are needed.
    if frame.base == 0 && source.is_level_zero() {
        level_zero_stays();
        let leaves = logical_leaves(alloc, source)?;
        Ok(leaves)
    } else {
        let leaves = ordered_leaves(alloc, frame, source)?;
        Ok(leaves)
    }
}

// The items in logical order, each with level 0.
fn logical_leaves<S: LineSource>(alloc: Global, source: &S) -> Result<LeafList, AllocError>
    requires { All (λ item. item.level ≡ 0) (S.items source.now) }
    ensures are { IfOk result (λ made. map (leaf_in (S.items source.now)) made.items ≡ in_logical_order (S.items source.now)) }
    ensures within { IfOk result (λ made. All (λ leaf. leaf.place < length (S.items source.now)) made.items) }
{
    let hanging = hanging_from(source);
    let mut leaves = Vec::with_capacity(alloc, source.count())?;
    for place in 0..source.count() {
        leaves.push_reserved(Leaf {
            place,
            level: 0,
            hangs: place >= hanging,
        });
    }
    Ok(leaves)
}

// The items by L1 and L2, whatever their levels.
#[tactic(auto, unfolding(crate::specs::Leaves::leaves))]
fn ordered_leaves<S: LineSource>(
    alloc: Global,
    frame: &LineFrame,
    source: &S,
) -> Result<LeafList, AllocError>
    ensures are { IfOk result (λ made. map (leaf_in (S.items source.now)) made.items ≡ leaves (line_in frame.now (S.items source.now))) }
    ensures within { IfOk result (λ made. All (λ leaf. leaf.place < length (S.items source.now)) made.items) }
    ensures reach { IfOk result (λ made. total leaf_reach (map (leaf_in (S.items source.now)) made.items) ≤ total item_reach (S.items source.now)) }
{
    let levels = levels_of(alloc, frame, source)?;
    let aparts = own_aparts(alloc, source)?;
    let order = visual_order(alloc, &levels, &aparts)?;
    let hanging = hanging_from(source);
    let mut leaves = Vec::with_capacity(alloc, order.len())?;
    for place in &order {
        leaves.push_reserved(leaf_at(source, &levels, hanging, *place));
    }
    Ok(leaves)
}

// The item at this place of the line, where its Spaces hang from `hanging` on.
#[inline(always)]
fn leaf_at<S: LineSource>(source: &S, levels: &[u8], hanging: usize, place: usize) -> Leaf
    requires place { place < length (S.items source.now) }
    requires levels { length levels.now ≡ length (S.items source.now) }
    requires hanging { (k : ℕ) → k < length (S.items source.now) → are_spaces (drop k (S.items source.now)) ≡ leb hanging k }
    ensures is { Some (leaf_in (S.items source.now) result) ≡ slice_get (leaves_from 0 levels.now (S.items source.now)) place }
    ensures within { result.place < length (S.items source.now) }
{
    Leaf {
        place,
        level: levels[place],
        hangs: place >= hanging,
    }
}

// The levels of the line's items after L1.
fn levels_of<S: LineSource>(
    alloc: Global,
    frame: &LineFrame,
    source: &S,
) -> Result<LevelList, AllocError>
    ensures levels { IfOk result (λ levels. levels.items ≡ levels_of (line_in frame.now (S.items source.now))) }
    ensures length { IfOk result (λ levels. length levels.items ≡ length (S.items source.now)) }
{
    let classes = item_classes(alloc, source)?;
    let mut levels = item_levels(alloc, source)?;
    reset(&mut levels, &classes, frame.base);
    Ok(levels)
}

// The levels of the items, before L1.
fn item_levels<S: LineSource>(alloc: Global, source: &S) -> Result<LevelList, AllocError>
    ensures levels { IfOk result (λ made. made.items ≡ map (λ item. item.level) (S.items source.now)) }
    ensures length { IfOk result (λ made. length made.items ≡ length (S.items source.now)) }
{
    match source.levels() {
        Some(levels) => {
            let made = Vec::from_slice(alloc, levels)?;
            Ok(made)
        }
        None => {
            let made = own_levels(alloc, source)?;
            Ok(made)
        }
    }
}

// The classes of the items.
fn item_classes<S: LineSource>(alloc: Global, source: &S) -> Result<ClassList, AllocError>
    ensures classes { IfOk result (λ made. made.items ≡ map (λ item. item.class) (S.items source.now)) }
    ensures length { IfOk result (λ made. length made.items ≡ length (S.items source.now)) }
{
    match source.classes() {
        Some(classes) => {
            let made = Vec::from_slice(alloc, classes)?;
            Ok(made)
        }
        None => {
            let made = own_classes(alloc, source)?;
            Ok(made)
        }
    }
}

// The levels of the items, read one by one.
fn own_levels<S: LineSource>(alloc: Global, source: &S) -> Result<LevelList, AllocError>
    ensures levels { IfOk result (λ made. made.items ≡ map (λ item. item.level) (S.items source.now)) }
    ensures length { IfOk result (λ made. length made.items ≡ length (S.items source.now)) }
{
    let mut made = Vec::with_capacity(alloc, source.count())?;
    for place in 0..source.count() {
        made.push_reserved(source.item(place).level);
    }
    Ok(made)
}

// What parts each item from the one before it.
fn own_aparts<S: LineSource>(alloc: Global, source: &S) -> Result<Aparts, AllocError>
    ensures aparts { IfOk result (λ made. made.items ≡ map (λ item. item.apart) (S.items source.now)) }
    ensures length { IfOk result (λ made. length made.items ≡ length (S.items source.now)) }
{
    let mut made = Vec::with_capacity(alloc, source.count())?;
    for place in 0..source.count() {
        made.push_reserved(source.item(place).apart);
    }
    Ok(made)
}

// The classes of the items, read one by one.
fn own_classes<S: LineSource>(alloc: Global, source: &S) -> Result<ClassList, AllocError>
    ensures classes { IfOk result (λ made. made.items ≡ map (λ item. item.class) (S.items source.now)) }
    ensures length { IfOk result (λ made. length made.items ≡ length (S.items source.now)) }
{
    let mut made = Vec::with_capacity(alloc, source.count())?;
    for place in 0..source.count() {
        made.push_reserved(source.item(place).class);
    }
    Ok(made)
}

// The place from which on the line has nothing but Spaces.
fn hanging_from<S: LineSource>(source: &S) -> usize
    ensures within { result ≤ length (S.items source.now) }
    ensures is { (k : ℕ) → k < length (S.items source.now) → are_spaces (drop k (S.items source.now)) ≡ leb result k }
{
    let mut from = source.count();
    while from > 0 && source.item(from - 1).space {
        from -= 1;
    }
    from
}
