//! What is kept of the boxes of an arena goes to another one, for the boxes that stand there as they did.

ghost use Rattle.std.specs.Prelude.{◌≡◌, ℕ, IfOk, IfSome, IsTrue, None, OnOk, Some};
ghost use Rattle.slab.specs.Slab.{ContainsKey};
ghost use Rattle.box_gen.specs.Tree.{Boxes};
ghost use Rattle.fragment_types.specs.declared.constraint.Constraint.{Constraint};
ghost use Rattle.box_arena.specs.At.{IsAbove, Node, first_at, kept_at, links_at, node_at, text_at};
ghost use Rattle.box_arena.specs.Boxes.{Stands};
ghost use Rattle.box_arena.specs.Links.{IsLinked};
ghost use Rattle.box_arena.specs.Reusing.{AreAround, AreNamedOnce, FindsEach, HandsUnder, IsGoneThrough, IsTree, LeavesNothing, Reuses, ReusesAll, StoodInside, StoodUnder, TellsInside, around_at, stood_behind};
ghost use Rattle.box_arena.specs.declared.reusing.Stood.TheVariants.{At};

use crate::arena::BoxArena;
use crate::equality::{are_equal, equal_lines};
use crate::key::BoxKey;
use crate::limits::{MOST_BOXES, MOST_DEEP};
use fragment_types::BoxName;
use std::alloc::{AllocError, Global};
use std::collections::BTreeMap;

// The keys of an arena by the names of their boxes: the node, and which of that node's boxes it is.
type Keys = BTreeMap<(u32, usize), usize>;

/// Where the next box of a row stood, as long as all before it stood so.
#[derive(Clone, Copy, Debug, PartialEq, Eq)]
pub(crate) enum Stood {
    At(Option<BoxKey>),
    Elsewhere,
}

// Whether a row has ended, and what stood there has too.
fn ends_alike(stood: &Stood, next: Option<BoxKey>) -> bool
    ensures ends { IsTrue result → (stood.now ≡ At None) × (next ≡ None) }
    ensures alike { stood.now ≡ At None → next ≡ None → IsTrue result }
{
    match stood {
        Stood::At(None) => next.is_none(),
        Stood::At(Some(_)) | Stood::Elsewhere => false,
    }
}

// What goes from one arena to another.
#[derive(Drop)]
struct Handover<'k, 'o, 'n, T> {
    keys: &'k Keys,
    giver: &'o mut BoxArena<T>,
    taker: &'n mut BoxArena<T>,
}

/// Hands what is kept in an arena to another one, for the boxes of the tree under a root there: the text of a box for one that has
/// its name, style and content, and its results where also the same boxes stand inside it, and the lines of the box around it run
/// alike. Where each box is told by its name, none of these is lost.
pub fn reuse<T: Drop>(
    alloc: Global,
    giver: &mut BoxArena<T>,
    taker: &mut BoxArena<T>,
    root: BoxKey,
) -> Result<(), AllocError>
    requires { IsTree taker.old.slots root }
    ensures reuses { Reuses giver.old giver.new taker.old taker.new }
    ensures all { OnOk result (ReusesAll giver.old.slots taker.old.slots taker.new.slots root) }
{
    let keys = keys_of(alloc, giver)?;
    let mut handover = Handover {
        keys: &keys,
        giver,
        taker,
    };
    let _ = handover.reuse_box(root, MOST_DEEP);
    Ok(())
}

// The keys of all boxes, by their names.
fn keys_of<T>(alloc: Global, arena: &BoxArena<T>) -> Result<Keys, AllocError>
    ensures { AreNamedOnce arena.now.slots → IfOk result (λ keys. FindsEach keys arena.now.slots) }
{
    let mut keys = BTreeMap::new(alloc);
    for key in 0..arena.boxes.capacity() {
        match arena.box_at(key) {
            Some(found) => {
                let BoxName { node, ordinal } = found.name;
                keys.insert((node, ordinal), key)?;
            }
            None => {}
        }
    }
    Ok(keys)
}

impl<T: Drop> Handover<'_, '_, '_, T> {
    // What is kept for a box and all inside it. Gives the key under which the same tree stood, if it stood.
    fn reuse_box(&mut self, key: BoxKey, depth: u32) -> Option<BoxKey>
        requires tree { IsTree self.old.taker.now.slots key }
        ensures lent { (self.new.giver.ghost_name ≡ self.old.giver.ghost_name) × (self.new.taker.ghost_name ≡ self.old.taker.ghost_name) }
        ensures keys { self.new.keys ≡ self.old.keys }
        ensures reuses { Reuses self.old.giver.now self.new.giver.now self.old.taker.now self.new.taker.now }
        ensures live { IfSome result (λ from. ContainsKey self.new.giver.now from) }
        ensures stood { IfSome result (λ from. StoodUnder self.old.giver.now.slots self.old.taker.now.slots from key) }
        ensures hands { HandsUnder self.old.giver.now.slots self.new.giver.now.slots self.old.taker.now.slots self.new.taker.now.slots key }
        ensures found { FindsEach self.old.keys.now self.old.giver.now.slots → (tree : Boxes) → IsGoneThrough self.old.taker.now.slots key depth tree → (from : ℕ) → Stands self.old.giver.now.slots from tree → result ≡ Some from }
        ensures leaves { FindsEach self.old.keys.now self.old.giver.now.slots → (tree : Boxes) → IsGoneThrough self.old.taker.now.slots key depth tree → (k : ℕ) → IsAbove self.old.taker.now.slots key k → LeavesNothing self.new.giver.now.slots self.new.taker.now.slots k }
    {
        if depth == 0 {
            return None;
        }
        let from = self.stood_at(key);
        let mut stood = self.inside(&from);
        let mut next = self.taker.first(key);
        for _ in 0..MOST_BOXES {
            let Some(child) = next else {
                break;
            };
            next = self.taker.next(child);
            let found = self.reuse_box(child, depth - 1);
            let behind = self.behind(&stood, found);
            stood = behind;
        }
        let is_same = ends_alike(&stood, next);
        match &from {
            Some(from) => {
                self.take_box(key, *from, is_same);
                if is_same { Some(*from) } else { None }
            }
            None => None,
        }
    }

    // The key under which a box of this name, style and content stood, if there is one.
    fn stood_at(&self, key: BoxKey) -> Option<BoxKey>
        requires { ContainsKey self.now.taker.now key }
        ensures live { IfSome result (λ from. ContainsKey self.now.giver.now from) }
        ensures same { IfSome result (λ from. node_at self.now.giver.now.slots from ≡ node_at self.now.taker.now.slots key) }
        ensures linked { IsLinked (links_at self.now.taker.now.slots) }
        ensures found { FindsEach self.now.keys.now self.now.giver.now.slots → (node : Node) → node_at self.now.taker.now.slots key ≡ Some node → (from : ℕ) → node_at self.now.giver.now.slots from ≡ Some node → result ≡ Some from }
    {
        let node = self.taker.node(key);
        let BoxName {
            node: number,
            ordinal,
        } = node.name;
        let index = *self.keys.get(&(number, ordinal))?;
        let stood = self.giver.box_at(index)?;
        if are_equal(stood, node) {
            Some(BoxKey { index })
        } else {
            None
        }
    }

    // Where the first of the boxes inside a box stood.
    fn inside(&self, from: &Option<BoxKey>) -> Stood
        requires { IfSome from.now (λ from. ContainsKey self.now.giver.now from) }
        ensures tells { (key : ℕ) → TellsInside self.now.giver.now.slots self.now.taker.now.slots from.now key result (first_at self.now.taker.now.slots key) }
        ensures at { IfSome from.now (λ from. result ≡ At (first_at self.now.giver.now.slots from)) }
    {
        match from {
            Some(from) => Stood::At(self.giver.first(*from)),
            None => Stood::Elsewhere,
        }
    }

    // Where the next box of a row stood, where this one was found there.
    fn behind(&self, stood: &Stood, found: Option<BoxKey>) -> Stood
        requires { IfSome found (λ found. ContainsKey self.now.giver.now found) }
        ensures { result ≡ stood_behind self.now.giver.now.slots stood.now found }
    {
        match (stood, found) {
            (Stood::At(Some(expected)), Some(found)) => {
                if *expected == found {
                    Stood::At(self.giver.next(found))
                } else {
                    Stood::Elsewhere
                }
            }
            (Stood::At(Some(_)), None) | (Stood::At(None), _) | (Stood::Elsewhere, _) => {
                Stood::Elsewhere
            }
        }
    }

    // What is kept for a box: its text, and its results where the boxes inside it are the same.
    fn take_box(&mut self, key: BoxKey, from: BoxKey, is_same: bool)
        requires key { IsTree self.old.taker.now.slots key }
        requires live { ContainsKey self.old.giver.now from }
        requires node { node_at self.old.giver.now.slots from ≡ node_at self.old.taker.now.slots key }
        requires inside { IsTrue is_same → StoodInside self.old.giver.now.slots self.old.taker.now.slots from key }
        ensures lent { (self.new.giver.ghost_name ≡ self.old.giver.ghost_name) × (self.new.taker.ghost_name ≡ self.old.taker.ghost_name) }
        ensures keys { self.new.keys ≡ self.old.keys }
        ensures reuses { Reuses self.old.giver.now self.new.giver.now self.old.taker.now self.new.taker.now }
        ensures hands { HandsUnder self.old.giver.now.slots self.new.giver.now.slots self.old.taker.now.slots self.new.taker.now.slots key }
        ensures text { text_at self.new.giver.now.slots from ≡ None }
        ensures results { IsTrue is_same → AreAround (around_at self.old.giver.now.slots from) (around_at self.old.taker.now.slots key) → (c : Constraint) → kept_at self.new.giver.now.slots from c ≡ None }
    {
        self.take_text(key, from);
        if is_same && self.stands_alike(from, key) && self.giver.keeps_results(from) {
            self.taker.take_results(key, self.giver, from);
        }
    }

    // The text that is kept for a box.
    fn take_text(&mut self, key: BoxKey, from: BoxKey)
        requires key { ContainsKey self.old.taker.now key }
        requires live { ContainsKey self.old.giver.now from }
        requires node { node_at self.old.giver.now.slots from ≡ node_at self.old.taker.now.slots key }
        ensures lent { (self.new.giver.ghost_name ≡ self.old.giver.ghost_name) × (self.new.taker.ghost_name ≡ self.old.taker.ghost_name) }
        ensures keys { self.new.keys ≡ self.old.keys }
        ensures reuses { Reuses self.old.giver.now self.new.giver.now self.old.taker.now self.new.taker.now }
        ensures hands { HandsUnder self.old.giver.now.slots self.new.giver.now.slots self.old.taker.now.slots self.new.taker.now.slots key }
        ensures text { text_at self.new.giver.now.slots from ≡ None }
    {
        if let Some(text) = self.giver.take_text(from) {
            self.taker.keep_text(key, text);
        }
    }

    // Whether the lines of the boxes around two boxes run alike.
    fn stands_alike(&self, from: BoxKey, key: BoxKey) -> bool
        requires live { ContainsKey self.now.giver.now from }
        requires key { ContainsKey self.now.taker.now key }
        ensures around { IsTrue result → AreAround (around_at self.now.giver.now.slots from) (around_at self.now.taker.now.slots key) }
        ensures alike { AreAround (around_at self.now.giver.now.slots from) (around_at self.now.taker.now.slots key) → IsTrue result }
    {
        match (self.giver.around(from), self.taker.around(key)) {
            (Some(one), Some(other)) => equal_lines(&one.style, &other.style),
            (None, None) => true,
            (Some(_), None) | (None, Some(_)) => false,
        }
    }
}
