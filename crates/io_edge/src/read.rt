//! All the bytes of a source.

ghost use Rattle.std.specs.Prelude.{◌≡◌, ◌<◌, ◌≤◌, ◌↔◌, List, ℕ, length, IfOk, OnOk, IsErrOf};
ghost use Rattle.std.specs.Io.KnownBytes.{Consumes, IsAtEnd};
ghost use Rattle.io_edge.specs.Edge.{Rose};

use crate::{Bytes, ReadError, Source};
use std::alloc::Global;

/// How many bytes are asked for in one turn.
const TURN: usize = 65_536;

/// All the bytes that a source has left, of which there may be at most `limit`.
///
/// Each turn takes at least one byte, so the work grows with the input. `ReadFault` comes only where the
/// source's count of faults rose in this call, and `TooLong` exactly where more than `limit` bytes were
/// taken. After a refusal the bytes taken so far are gone from the source, and no other.
pub fn read_all<S: Source>(alloc: Global, source: &mut S, limit: usize) -> Result<Bytes, ReadError>
    ensures taken { (taken : List ℕ) × Consumes (S.left source.old) (S.left source.new) taken
        × IfOk result (λ bytes. bytes ≡ taken)
        × (IsErrOf result ReadError.TooLong ↔ (limit < length taken)) }
    ensures end { OnOk result (IsAtEnd (S.left source.new)) }
    ensures within { IfOk result (λ bytes. length bytes ≤ limit) }
    ensures later { S.faults source.old ≤ S.faults source.new }
    ensures fault { IsErrOf result ReadError.ReadFault → Rose (S.faults source.old) (S.faults source.new) }
{
    let mut bytes = Vec::new(alloc);
    let mut turn = [0; TURN];
    loop {
        let count = source.read(&mut turn)?;
        if count == 0 {
            return Ok(Bytes::new(bytes));
        }
        if count > limit - bytes.len() {
            return Err(ReadError::TooLong);
        }
        bytes.extend_from_slice(&turn[..count])?;
    }
}
