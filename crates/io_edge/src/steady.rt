//! A source and a sink in memory that never fail.

ghost use Rattle.std.specs.Prelude.{◌≡◌, ◌<◌, List, ℕ, [], ◌++◌, Some, length, min, IsOk, IfOk, IsErrOf};
ghost use Rattle.std.specs.Io.{ReadsAtMost, WritesAtMost};
ghost use Rattle.std.specs.Io.KnownBytes.{ReadConsumes, WriteAppends};
ghost use Rattle.io_edge.specs.Edge.{HasCause, TakesSome};

use crate::copies::copy_front;
use crate::{IoFail, Sink, Source};
use std::alloc::Global;
use std::marker::Model;

/// A source of bytes in memory, which never fails. Contracts see it as the bytes left.
#[derive(Drop)]
pub struct SteadySource<'a> {
    rest: &'a [u8],
}

impl<'a> Model for SteadySource<'a> {
    ghost Value = { List ℕ };

    ghost view = { λ s. s.rest.now };
}

impl<'a> SteadySource<'a> {
    /// A source with these bytes left.
    pub fn new(bytes: &'a [u8]) -> Self
        ensures { result ≡ bytes.now }
    {
        SteadySource { rest: bytes }
    }
}

impl<'a> Source for SteadySource<'a> {
    ghost left = { λ source. Some source };

    ghost faults = { λ _. 0 };

    /// As many bytes as the buffer has room for. It never fails.
    fn read(&mut self, buf: &mut [u8]) -> Result<usize, IoFail>
        ensures count { ReadsAtMost result buf.new }
        ensures bytes { ReadConsumes (Some self.old) (Some self.new) result buf.new }
        ensures cause { HasCause 0 0 result }
        ensures steady { IsOk result }
        ensures all { IfOk result (λ count. count ≡ min (length buf.old) (length self.old)) }
    {
        let count = copy_front(self.rest, buf, usize::MAX);
        self.rest = self.rest.split_at(count).1;
        Ok(count)
    }
}

/// A sink in memory, which never fails but for want of memory. Contracts see it as the bytes held.
#[derive(Drop)]
pub struct SteadySink {
    bytes: Vec<u8>,
}

impl Model for SteadySink {
    ghost Value = { List ℕ };

    ghost view = { λ s. s.bytes.items };
}

impl SteadySink {
    /// A sink that holds nothing.
    pub fn new(alloc: Global) -> Self
        ensures { result ≡ [] }
    {
        SteadySink {
            bytes: Vec::new(alloc),
        }
    }

    /// The bytes held.
    pub fn bytes(&self) -> &[u8]
        ensures { result.now ≡ self.now }
    {
        &self.bytes
    }
}

impl Sink for SteadySink {
    ghost held = { λ sink. Some sink };

    ghost faults = { λ _. 0 };

    /// Takes the whole piece. It never answers `Failed`.
    fn write(&mut self, piece: &[u8]) -> Result<usize, IoFail>
        ensures count { WritesAtMost result piece.now }
        ensures some { TakesSome result piece.now }
        ensures bytes { WriteAppends (Some self.old) (Some self.new) result piece.now }
        ensures cause { HasCause 0 0 result }
        ensures steady { IsErrOf result IoFail.Failed → ⊥ }
        ensures all { IfOk result (λ count. count ≡ length piece.now) }
    {
        match self.bytes.extend_from_slice(piece) {
            Ok(()) => Ok(piece.len()),
            Err(_) => Err(IoFail::Memory),
        }
    }
}
