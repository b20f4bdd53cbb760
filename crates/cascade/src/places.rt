//! Places of rules under names.

ghost use Rattle.std.specs.Prelude.{◌≡◌, List, ℕ, [], ◌∷◌, ◌++◌, cond, bytes_eq, OnOk};
ghost use Rattle.cascade.specs.Places.{places_under};

use letters::Letters;
use std::alloc::{AllocError, Global};
use std::collections::HashMap;

/// Places of rules, each under a name.
#[derive(Drop)]
pub(crate) struct Places {
    under: HashMap<Letters, Vec<usize>>,
}

impl Places {
    /// No places.
    pub(crate) fn new(alloc: Global) -> Places
        ensures { (name : List ℕ) → places_under result name ≡ [] }
    {
        Places {
            under: HashMap::new(alloc),
        }
    }

    /// The places under a name, in the order in which they were put.
    #[tactic(auto, using(crate::proofs::Unnamed::none_under))]
    pub(crate) fn under(&self, name: &str) -> &[usize]
        ensures { result.now ≡ places_under self.now name.now }
    {
        // What has none, as most have for the default sheet, hashes no name.
        if self.under.is_empty() {
            return &[];
        }
        match self.under.get(name) {
            Some(places) => places,
            None => &[],
        }
    }

    /// Puts a place under a name.
    pub(crate) fn put(&mut self, alloc: Global, name: &str, place: usize) -> Result<(), AllocError>
        ensures { OnOk result ((other : List ℕ) → places_under self.new other ≡ cond (bytes_eq other name.now) (places_under self.old other ++ place ∷ []) (places_under self.old other)) }
    {
        let name = String::from_str(alloc, name)?;
        self.under.entry(name)?.or_default().push(place)?;
        Ok(())
    }
}
