//! A sink that finds memory for some pieces alone.

ghost use Rattle.std.specs.Prelude.{◌≡◌, Some};

use io_edge::{IoFail, Sink, SteadySink};
use std::alloc::Global;

/// A sink in memory that takes so many pieces whole, and finds no memory for any other.
#[derive(Drop)]
pub(crate) struct ScantSink {
    sink: SteadySink,
    pieces: u64,
}

impl ScantSink {
    /// One that holds nothing, and takes so many pieces.
    pub(crate) fn new(alloc: Global, pieces: u64) -> ScantSink {
        ScantSink {
            sink: SteadySink::new(alloc),
            pieces,
        }
    }

    /// How many bytes it holds.
    pub(crate) fn len(&self) -> usize {
        self.sink.bytes().len()
    }
}

impl Sink for ScantSink {
    ghost held = { λ own. Some own.sink };

    ghost faults = { λ _. 0 };

    fn write(&mut self, piece: &[u8]) -> Result<usize, IoFail> {
        let Some(others) = self.pieces.checked_sub(1) else {
            return Err(IoFail::Memory);
        };
        self.pieces = others;
        self.sink.write(piece)
    }
}
