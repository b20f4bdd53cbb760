//! Where reading stopped, and why.

ghost use Rattle.std.specs.Prelude.{◌≡◌};
ghost use Rattle.reading.specs.Stop.{IsStopAt};
ghost use Rattle.reading.specs.declared.stop.Stop.TheVariants.{Memory};

use std::alloc::{AllocError, AllocFailed};
use std::fmt::Debug;

/// What a text may be refused for. One kind says that it doesn't go on as its grammar does.
pub trait Kind: Copy + Debug + Drop {
    ghost syntax: { Self };

    fn syntax() -> Self
        ensures { result ≡ syntax };
}

/// Where reading stopped: by a refusal, with the bytes from its place on, or without memory.
#[derive(Clone, Copy, Debug, Drop)]
pub enum Stop<'a, K> {
    Refused(K, &'a [u8]),
    Memory,
}

// What is left where the grammar doesn't go on.
impl<'a, K: Kind> From<&'a [u8]> for Stop<'a, K> {
    ghost from_gives = { λ left stop. IsStopAt K.syntax left.now stop };

    fn from(left: &'a [u8]) -> Stop<'a, K> {
        Stop::Refused(K::syntax(), left)
    }
}

impl<'a, K: Kind> From<AllocError> for Stop<'a, K> {
    ghost from_gives = { λ _ stop. stop ≡ Memory };

    fn from(_e: AllocError) -> Stop<'a, K> {
        Stop::Memory
    }
}

impl<'a, K: Kind, T: Drop> From<AllocFailed<T>> for Stop<'a, K> {
    ghost from_gives = { λ _ stop. stop ≡ Memory };

    fn from(_e: AllocFailed<T>) -> Stop<'a, K> {
        Stop::Memory
    }
}
