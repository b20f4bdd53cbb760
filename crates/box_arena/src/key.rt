//! Keys of boxes.

ghost use Rattle.std.specs.Prelude.{◌≡◌, ℕ};

use std::marker::Model;

/// The key of a box in its arena. A key that was freed may be given to a new box.
#[derive(Clone, Copy, Debug, PartialEq, Eq)]
pub struct BoxKey {
    pub(crate) index: usize,
}

impl Model for BoxKey {
    ghost Value = { ℕ };

    ghost view = { λ key. key.index };

    ghost inverse = { λ index. record { index = index } };
}

/// The box under this number, if one is meant.
pub(crate) fn key_of(index: Option<usize>) -> Option<BoxKey>
    ensures { result ≡ index }
{
    match index {
        Some(index) => Some(BoxKey { index }),
        None => None,
    }
}

/// The number of a box, if one is meant.
pub(crate) fn index_of(key: Option<BoxKey>) -> Option<usize>
    ensures { result ≡ key }
{
    match key {
        Some(key) => Some(key.index),
        None => None,
    }
}
