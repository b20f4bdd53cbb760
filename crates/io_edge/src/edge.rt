//! A source and a sink as the engine sees them.

ghost use Rattle.std.specs.Prelude.{◌≡◌, List, ℕ};
ghost use Rattle.std.specs.declared.option.Option.{Option};
ghost use Rattle.std.specs.Io.{ReadsAtMost, WritesAtMost};
ghost use Rattle.std.specs.Io.KnownBytes.{ReadConsumes, WriteAppends};
ghost use Rattle.io_edge.specs.Edge.{HasCause, TakesSome};

/// Why a call moved no byte.
#[derive(Clone, Copy, Debug, PartialEq, Eq)]
pub enum IoFail {
    /// The stream failed, and its count of faults rose.
    Failed,
    /// Memory ran out.
    Memory,
}

/// Where bytes come from.
pub trait Source {
    /// The bytes left, where it tells them.
    ghost left: { Self → Option (List ℕ) };

    /// How often it has failed. The count never falls.
    ghost faults: { Self → ℕ };

    /// Puts bytes at the front of `buf`, and answers how many. For a buffer that isn't empty 0 is the end
    /// of input, and comes only where none is left. `Failed` and `Memory` move no byte.
    fn read(&mut self, buf: &mut [u8]) -> Result<usize, IoFail>
        ensures count { ReadsAtMost result buf.new }
        ensures bytes { ReadConsumes (left self.old) (left self.new) result buf.new }
        ensures cause { HasCause (faults self.old) (faults self.new) result };
}

/// Where bytes go to.
pub trait Sink {
    /// The bytes held, where it tells them.
    ghost held: { Self → Option (List ℕ) };

    /// How often it has failed. The count never falls.
    ghost faults: { Self → ℕ };

    /// Takes bytes from the front of `piece`, at least one of a piece that isn't empty, and answers how
    /// many. `Failed` and `Memory` move no byte.
    fn write(&mut self, piece: &[u8]) -> Result<usize, IoFail>
        ensures count { WritesAtMost result piece.now }
        ensures some { TakesSome result piece.now }
        ensures bytes { WriteAppends (held self.old) (held self.new) result piece.now }
        ensures cause { HasCause (faults self.old) (faults self.new) result };
}
