//! The trusted edge: a source and a sink over a reader and a writer of std.
//!
//! What a file, a terminal or a pipe gives and takes can't be known, so neither form tells its bytes.

ghost use Rattle.std.specs.Prelude.{◌≡◌, None, IsErrOf};
ghost use Rattle.std.specs.Io.{ReadsAtMost, WritesAtMost};
ghost use Rattle.std.specs.Io.KnownBytes.{ReadConsumes, WriteAppends};
ghost use Rattle.io_edge.specs.Edge.{HasCause, CountsFaults, TakesSome};

use crate::{IoFail, Sink, Source};
use std::io::{Read, Write};

/// A source over a reader of std. Each error of the reader, also one for want of memory, is a fault.
#[derive(Drop)]
pub struct StdSource<R> {
    inner: R,
    faults: u64,
}

impl<R: Read> StdSource<R> {
    /// A source of what the reader gives, which has not failed yet.
    pub fn new(inner: R) -> Self
        ensures inner { result.inner ≡ inner }
        ensures faults { result.faults ≡ 0 }
    {
        StdSource { inner, faults: 0 }
    }
}

impl<R: Read> Source for StdSource<R> {
    ghost left = { λ _. None };

    ghost faults = { λ source. source.faults };

    /// What the reader gives. At its error the count of faults rises, up to the last value of a `u64`.
    fn read(&mut self, buf: &mut [u8]) -> Result<usize, IoFail>
        ensures count { ReadsAtMost result buf.new }
        ensures bytes { ReadConsumes None None result buf.new }
        ensures cause { HasCause self.old.faults self.new.faults result }
        ensures counted { CountsFaults self.old.faults self.new.faults result }
        ensures memory { IsErrOf result IoFail.Memory → ⊥ }
        ensures inner { ReadConsumes (R.remaining self.old.inner) (R.remaining self.new.inner) result buf.new }
    {
        match self.inner.read(buf) {
            Ok(count) => Ok(count),
            Err(_) => {
                self.faults = self.faults.saturating_add(1);
                Err(IoFail::Failed)
            }
        }
    }
}

/// A sink over a writer of std. Each error of the writer, also one for want of memory, is a fault, and so
/// is a write that takes nothing.
#[derive(Drop)]
pub struct StdSink<W> {
    inner: W,
    faults: u64,
}

impl<W: Write> StdSink<W> {
    /// A sink that gives all to the writer, and has not failed yet.
    pub fn new(inner: W) -> Self
        ensures inner { result.inner ≡ inner }
        ensures faults { result.faults ≡ 0 }
    {
        StdSink { inner, faults: 0 }
    }
}

impl<W: Write> Sink for StdSink<W> {
    ghost held = { λ _. None };

    ghost faults = { λ sink. sink.faults };

    /// What the writer takes. At its error, and where it takes nothing of a piece that isn't empty, the
    /// count of faults rises, up to the last value of a `u64`.
    fn write(&mut self, piece: &[u8]) -> Result<usize, IoFail>
        ensures count { WritesAtMost result piece.now }
        ensures some { TakesSome result piece.now }
        ensures bytes { WriteAppends None None result piece.now }
        ensures cause { HasCause self.old.faults self.new.faults result }
        ensures counted { CountsFaults self.old.faults self.new.faults result }
        ensures memory { IsErrOf result IoFail.Memory → ⊥ }
        ensures inner { WriteAppends (W.contents self.old.inner) (W.contents self.new.inner) result piece.now }
    {
        match self.inner.write(piece) {
            Ok(count) if count > 0 || piece.is_empty() => Ok(count),
            _ => {
                self.faults = self.faults.saturating_add(1);
                Err(IoFail::Failed)
            }
        }
    }
}
