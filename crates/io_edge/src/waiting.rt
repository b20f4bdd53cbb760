//! Bytes that wait for a sink, so that it is called once for many small writes.

ghost use Rattle.std.specs.Prelude.{◌≡◌, ◌<◌, ◌≤◌, List, ℕ, [], ◌++◌, length, OnOk, IsErrOf};
ghost use Rattle.std.specs.Io.KnownBytes.{Appends};
ghost use Rattle.io_edge.specs.Edge.{Rose, AppendsFront, AppendsUpTo};

use crate::{Sink, WriteError, write_all_of};
use arrayvec::ArrayVec;
use std::marker::Model;

/// How many bytes are handed on at once.
const PIECE: usize = 4096;

/// Bytes that wait for a sink: up to 4,096 of them, which lie in the value itself. Contracts see their list.
///
/// Each piece that is handed on is 4,096 bytes long, but for the last one, which `flush` hands on. What waits when
/// a sink refuses a piece may be written in part.
#[derive(Drop)]
pub struct Waiting {
    bytes: ArrayVec<u8, PIECE>,
}

impl Model for Waiting {
    ghost Value = { List ℕ };

    ghost view = { λ w. w.bytes.items };
}

impl Waiting {
    /// No byte waits.
    pub fn new() -> Self
        ensures { result ≡ [] }
    {
        Waiting {
            bytes: ArrayVec::new(),
        }
    }

    /// Puts bytes behind those that wait. Of them all a front goes to the sink, and the rest waits.
    ///
    /// `WriteFault` comes only where the sink's count of faults rose in this call.
    #[inline(always)]
    #[tactic(auto, using(crate::proofs::Growth::starts, crate::proofs::Growth::nothing_yet))]
    pub fn put<K: Sink>(&mut self, bytes: &[u8], sink: &mut K) -> Result<(), WriteError>
        ensures front { AppendsFront (K.held sink.old) (K.held sink.new) (self.old ++ bytes.now) }
        ensures waits { OnOk result (AppendsUpTo (K.held sink.old) (K.held sink.new) (self.old ++ bytes.now) self.new) }
        ensures later { K.faults sink.old ≤ K.faults sink.new }
        ensures fault { IsErrOf result WriteError.WriteFault → Rose (K.faults sink.old) (K.faults sink.new) }
    {
        match self.bytes.try_extend_from_slice(bytes) {
            Ok(()) => Ok(()),
            Err(_) => self.put_by_pieces(bytes, sink),
        }
    }

    // Puts bytes after those that wait, where there isn't room for all of them: piece by piece, and what waits goes to
    // the sink whenever there is no room for more.
    #[inline(never)]
    fn put_by_pieces<K: Sink>(&mut self, bytes: &[u8], sink: &mut K) -> Result<(), WriteError>
        ensures front { AppendsFront (K.held sink.old) (K.held sink.new) (self.old ++ bytes.now) }
        ensures waits { OnOk result (AppendsUpTo (K.held sink.old) (K.held sink.new) (self.old ++ bytes.now) self.new) }
        ensures later { K.faults sink.old ≤ K.faults sink.new }
        ensures fault { IsErrOf result WriteError.WriteFault → Rose (K.faults sink.old) (K.faults sink.new) }
    {
        let mut rest = bytes;
        while !rest.is_empty() {
            self.make_room(sink)?;
            rest = self.take_front(rest);
        }
        Ok(())
    }

    // Hands on what waits where there is no room for a byte more.
    #[tactic(auto, using(crate::proofs::Growth::starts, crate::proofs::Growth::nothing_yet))]
    fn make_room<K: Sink>(&mut self, sink: &mut K) -> Result<(), WriteError>
        ensures front { AppendsFront (K.held sink.old) (K.held sink.new) self.old }
        ensures waits { OnOk result (AppendsUpTo (K.held sink.old) (K.held sink.new) self.old self.new) }
        ensures room { OnOk result (length self.new < 4096) }
        ensures later { K.faults sink.old ≤ K.faults sink.new }
        ensures fault { IsErrOf result WriteError.WriteFault → Rose (K.faults sink.old) (K.faults sink.new) }
    {
        if self.bytes.is_full() {
            self.flush(sink)
        } else {
            Ok(())
        }
    }

    // Takes as many bytes as there is room for, and answers the others.
    fn take_front<'a>(&mut self, bytes: &'a [u8]) -> &'a [u8]
        requires { length self.old < 4096 }
        ensures taken { self.old ++ bytes.now ≡ self.new ++ result.now }
        ensures some { 0 < length bytes.now → length result.now < length bytes.now }
    {
        let room = self.bytes.remaining_capacity();
        let (front, rest) = bytes.split_at(room.min(bytes.len()));
        match self.bytes.try_extend_from_slice(front) {
            Ok(()) => rest,
            Err(_) => bytes,
        }
    }

    /// Gives all that waits to the sink, after which nothing waits.
    ///
    /// `WriteFault` comes only where the sink's count of faults rose in this call.
    pub fn flush<K: Sink>(&mut self, sink: &mut K) -> Result<(), WriteError>
        ensures front { AppendsFront (K.held sink.old) (K.held sink.new) self.old }
        ensures whole { OnOk result (Appends (K.held sink.old) (K.held sink.new) self.old) }
        ensures none { OnOk result (self.new ≡ []) }
        ensures later { K.faults sink.old ≤ K.faults sink.new }
        ensures fault { IsErrOf result WriteError.WriteFault → Rose (K.faults sink.old) (K.faults sink.new) }
    {
        write_all_of(sink, self.bytes.as_slice())?;
        self.bytes.clear();
        Ok(())
    }
}
