//! The list of fragments in those that have none inside them.

ghost use Rattle.std.specs.Prelude.{◌≡◌, IfOk, length};

use fragment_types::Fragments;
use std::alloc::{AllocError, Global};
use std::rc::Rc;

/// A list of no fragments, which all fragments with none inside them share.
#[derive(Debug, Drop)]
pub struct NoFragments {
    list: Rc<Fragments>,
    ghost none: { length list.value.items ≡ 0 },
}

impl NoFragments {
    /// Such a list. Takes memory, and none when it is shared.
    pub fn new(alloc: Global) -> Result<NoFragments, AllocError> {
        Ok(NoFragments {
            list: Rc::new(alloc, Vec::new(alloc))?,
        })
    }

    /// The list, for one fragment more.
    pub(crate) fn share(&self) -> Result<Rc<Fragments>, AllocError>
        ensures { IfOk result (λ list. length list.value.items ≡ 0) }
    {
        let list = self.list.clone()?;
        Ok(list)
    }
}
