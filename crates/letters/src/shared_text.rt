//! A text whose copies share its bytes.

ghost use Rattle.std.specs.Prelude.{◌≡◌, IfOk};

use std::alloc::{AllocError, Global};
use std::marker::Model;
use std::ops::Deref;
use std::rc::Rc;

/// The text of a text node. Copies share its bytes, so that a text stands in memory once, however many lists hold it. A
/// contract sees it as the string.
#[derive(Debug, Drop)]
pub struct SharedText {
    shared: Rc<String>,
}

impl Model for SharedText {
    ghost use Rattle.std.specs.Global.{Global};
    ghost use Rattle.std.specs.Prelude.{String};

    ghost Value = { String Global };

    ghost view = { λ text. text.shared.value };
}

impl SharedText {
    /// The text with these letters.
    pub fn new(alloc: Global, letters: String) -> Result<SharedText, AllocError>
        ensures { IfOk result (λ text. text ≡ letters) }
    {
        Ok(SharedText {
            shared: Rc::new(alloc, letters)?,
        })
    }
}

impl Deref for SharedText {
    type Target = String;

    ghost deref_gives = { λ text letters. letters ≡ text };

    fn deref(&self) -> &String {
        &self.shared
    }
}

impl Clone for SharedText {
    ghost is_clone = { λ text copy. copy ≡ text };

    fn clone(&self) -> Result<SharedText, AllocError> {
        Ok(SharedText {
            shared: self.shared.clone()?,
        })
    }
}
