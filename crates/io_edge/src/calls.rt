//! The calls of a source or a sink in memory: which of them fail, and how many were made.

ghost use Rattle.std.specs.Prelude.{◌≡◌, ◌+◌, ◌↔◌, Contains, IfOk, IsTrue, if◌then◌else◌};
ghost use Rattle.std.specs.Io.Iter.{u64_saturate};

use crate::Memory;
use std::alloc::Global;

/// The calls that fail, by their numbers, and counts of those made and of those that failed. Each count
/// stops at the last value of a `u64`.
#[derive(Drop)]
pub struct Calls {
    pub failing: Vec<u64>,
    pub made: u64,
    pub faults: u64,
}

impl Calls {
    /// No call was made yet. Those with these numbers will fail.
    pub fn new(alloc: Global, failing: &[u64]) -> Result<Self, Memory>
        ensures failing { IfOk result (λ calls. calls.failing.items ≡ failing.now) }
        ensures made { IfOk result (λ calls. calls.made ≡ 0) }
        ensures faults { IfOk result (λ calls. calls.faults ≡ 0) }
    {
        Ok(Calls {
            failing: failing.to_vec(alloc)?,
            made: 0,
            faults: 0,
        })
    }

    /// Counts a call, and answers whether it fails.
    pub fn fails(&mut self) -> bool
        ensures answer { IsTrue result ↔ Contains self.old.failing.items self.old.made }
        ensures made { self.new.made ≡ u64_saturate (self.old.made + 1) }
        ensures faults { self.new.faults ≡ (if result then u64_saturate (self.old.faults + 1) else self.old.faults) }
        ensures failing { self.new.failing.items ≡ self.old.failing.items }
    {
        let fails = self.failing.contains(&self.made);
        self.made = self.made.saturating_add(1);
        if fails {
            self.faults = self.faults.saturating_add(1);
        }
        fails
    }
}
