//! A source and a sink in memory that fail at calls named beforehand, to try what stands after a fault.

ghost use Rattle.std.specs.Prelude.{◌≡◌, ◌<◌, ◌≤◌, List, ℕ, [], drop, Some, length, min, IfOk, IsErrOf};
ghost use Rattle.std.specs.Io.{ReadsAtMost, WritesAtMost};
ghost use Rattle.std.specs.Io.KnownBytes.{ReadConsumes, WriteAppends};
ghost use Rattle.io_edge.specs.Edge.{HasCause, TakesSome};
ghost use Rattle.io_edge.specs.Memory.{InMemory, IsCall, at_start};

use crate::calls::Calls;
use crate::copies::copy_front;
use crate::{IoFail, Memory, Sink, Source};
use std::alloc::Global;
use std::marker::Model;

/// A source of bytes in memory. It fails at the calls that were named, and gives at most so many bytes a
/// call.
#[derive(Drop)]
pub struct MemorySource {
    bytes: Vec<u8>,
    taken: usize,
    most: usize,
    calls: Calls,
}

impl Model for MemorySource {
    ghost Value = { InMemory };

    ghost view = { λ s. record {
      bytes = drop s.taken s.bytes.items;
      failing = s.calls.failing.items;
      most = s.most;
      calls = s.calls.made;
      faults = s.calls.faults;
    } };

    ghost invariant = { λ s. (s.taken ≤ length s.bytes.items) × (0 < s.most) };
}

impl MemorySource {
    /// A source with a copy of these bytes left. The calls whose numbers, from 0, are in `failing` fail,
    /// and every other gives at most `most` bytes.
    pub fn new(alloc: Global, bytes: &[u8], failing: &[u64], most: usize) -> Result<Self, Memory>
        requires { 0 < most }
        ensures { IfOk result (λ source. source ≡ at_start bytes.now failing.now most) }
    {
        Ok(MemorySource {
            bytes: bytes.to_vec(alloc)?,
            taken: 0,
            most,
            calls: Calls::new(alloc, failing)?,
        })
    }
}

impl Source for MemorySource {
    ghost left = { λ source. Some source.bytes };

    ghost faults = { λ source. source.faults };

    /// Fails where this call was named, and else gives as many bytes as there are, as the buffer has room
    /// for and as one call gives.
    fn read(&mut self, buf: &mut [u8]) -> Result<usize, IoFail>
        ensures count { ReadsAtMost result buf.new }
        ensures bytes { ReadConsumes (Some self.old.bytes) (Some self.new.bytes) result buf.new }
        ensures cause { HasCause self.old.faults self.new.faults result }
        ensures call { IsCall self.old self.new result }
        ensures all { IfOk result (λ count. count ≡ min self.old.most (min (length buf.old) (length self.old.bytes))) }
        ensures memory { IsErrOf result IoFail.Memory → ⊥ }
    {
        if self.calls.fails() {
            return Err(IoFail::Failed);
        }
        let rest = self.bytes.as_slice().split_at(self.taken).1;
        let count = copy_front(rest, buf, self.most);
        self.taken += count;
        Ok(count)
    }
}

/// A sink in memory. It fails at the calls that were named, and takes at most so many bytes a call.
#[derive(Drop)]
pub struct MemorySink {
    bytes: Vec<u8>,
    most: usize,
    calls: Calls,
}

impl Model for MemorySink {
    ghost Value = { InMemory };

    ghost view = { λ s. record {
      bytes = s.bytes.items;
      failing = s.calls.failing.items;
      most = s.most;
      calls = s.calls.made;
      faults = s.calls.faults;
    } };

    ghost invariant = { λ s. 0 < s.most };
}

impl MemorySink {
    /// A sink that holds nothing. The calls whose numbers, from 0, are in `failing` fail, and every other
    /// takes at most `most` bytes.
    pub fn new(alloc: Global, failing: &[u64], most: usize) -> Result<Self, Memory>
        requires { 0 < most }
        ensures { IfOk result (λ sink. sink ≡ at_start [] failing.now most) }
    {
        Ok(MemorySink {
            bytes: Vec::new(alloc),
            most,
            calls: Calls::new(alloc, failing)?,
        })
    }

    /// The bytes held.
    pub fn bytes(&self) -> &[u8]
        ensures { result.now ≡ self.now.bytes }
    {
        &self.bytes
    }
}

impl Sink for MemorySink {
    ghost held = { λ sink. Some sink.bytes };

    ghost faults = { λ sink. sink.faults };

    /// Fails where this call was named, and else takes as many bytes of the piece as one call takes.
    fn write(&mut self, piece: &[u8]) -> Result<usize, IoFail>
        ensures count { WritesAtMost result piece.now }
        ensures some { TakesSome result piece.now }
        ensures bytes { WriteAppends (Some self.old.bytes) (Some self.new.bytes) result piece.now }
        ensures cause { HasCause self.old.faults self.new.faults result }
        ensures call { IsCall self.old self.new result }
        ensures all { IfOk result (λ count. count ≡ min self.old.most (length piece.now)) }
    {
        if self.calls.fails() {
            return Err(IoFail::Failed);
        }
        let count = self.most.min(piece.len());
        match self.bytes.extend_from_slice(piece.split_at(count).0) {
            Ok(()) => Ok(count),
            Err(_) => Err(IoFail::Memory),
        }
    }
}
