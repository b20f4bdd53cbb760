//! The classes of elements that have many, made ready to be looked up.

ghost use Rattle.std.specs.Prelude.{◌≡◌, ◌≢◌, ℕ, List, None, IfOk, IfSome, map, nat_eq, option_map};
ghost use Rattle.std.specs.HashMap.{get};
ghost use Rattle.std.specs.String.{string_bytes};
ghost use Rattle.dom_store.specs.State.{What, what_of};
ghost use Rattle.cascade.specs.ClassSets.{AreClasses, is_in, set_at};
ghost use Rattle.cascade.specs.Matching.{each, has_class};

use dom_store::NodeKind;
use letters::Letters;
use std::alloc::{AllocError, Global};
use std::collections::{BTreeSet, HashMap};

/// How many classes of an element are looked through in turn.
const FEW: usize = 64;

/// The classes of an element, in order: to find one takes the logarithm of their count, whatever they are.
#[derive(Drop)]
pub(crate) struct ClassSet {
    all: BTreeSet<Letters>,
}

impl ClassSet {
    // The set of these classes.
    fn of(alloc: Global, classes: &[Letters]) -> Result<ClassSet, AllocError>
        ensures { IfOk result (λ set. (class : List ℕ) → is_in set class ≡ has_class (map (λ c. string_bytes c) classes.now) class) }
    {
        let mut all = BTreeSet::new(alloc);
        for class in classes {
            all.insert(String::from_str(alloc, class)?)?;
        }
        Ok(ClassSet { all })
    }

    /// Whether it has each of these.
    pub(crate) fn has_each(&self, classes: &[Letters]) -> bool
        ensures { result ≡ each (is_in self.now) (map (λ c. string_bytes c) classes.now) }
    {
        classes.iter().all(|class| self.has(class))
    }

    fn has(&self, class: &Letters) -> bool
        ensures { result ≡ is_in self.now (string_bytes class.now) }
    {
        self.all.contains(class.as_str())
    }
}

// The set of the classes of a node, where they are many and there is memory for it.
fn set_of(alloc: Global, kind: &NodeKind) -> Option<ClassSet>
    ensures { AreClasses result (what_of kind.now) }
{
    match kind {
        NodeKind::Element { classes, .. } if classes.len() > FEW => {
            match ClassSet::of(alloc, classes) {
                Ok(set) => Some(set),
                Err(_) => None,
            }
        }
        _ => None,
    }
}

/// Sets of the classes of nodes of a line, each at its height: how many nodes stand above it. Only nodes with many have
/// one.
#[derive(Drop)]
pub(crate) struct ClassSets {
    at: Option<HashMap<usize, ClassSet>>,
}

impl ClassSets {
    /// No sets.
    pub(crate) fn none() -> ClassSets
        ensures { result.at ≡ None }
    {
        ClassSets { at: None }
    }

    /// The set at this height.
    pub(crate) fn at(&self, height: usize) -> Option<&ClassSet>
        ensures { option_map (λ set. set.now) result ≡ set_at self.now height }
    {
        match &self.at {
            Some(sets) => sets.get(&height),
            None => None,
        }
    }

    /// Puts the set of a node at this height, or none.
    pub(crate) fn put(&mut self, alloc: Global, height: usize, kind: &NodeKind)
        ensures others { (other : ℕ) → other ≢ height → set_at self.new other ≡ set_at self.old other }
        ensures placed { AreClasses (set_at self.new height) (what_of kind.now) }
    {
        let set = set_of(alloc, kind);
        if set.is_some() || self.at.is_some() {
            let sets = match self.at.take() {
                Some(sets) => sets,
                None => HashMap::new(alloc),
            };
            self.at = Some(with_set(sets, height, set));
        }
    }
}

// The sets with another one at this height, or with none there.
fn with_set(
    sets: HashMap<usize, ClassSet>,
    height: usize,
    set: Option<ClassSet>,
) -> HashMap<usize, ClassSet>
    ensures others { (other : ℕ) → other ≢ height → get nat_eq result other ≡ get nat_eq sets other }
    ensures placed { (what : What) → AreClasses set what → AreClasses (get nat_eq result height) what }
{
    let mut sets = sets;
    sets.remove(&height);
    if let Some(set) = set {
        let _ = sets.insert(height, set);
    }
    sets
}
