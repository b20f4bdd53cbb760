//! Copies of documents.

ghost use Rattle.std.specs.Prelude.{◌≡◌, IfOk};
ghost use Rattle.dom_store.specs.State.{state_of};

use crate::copies::copy_of_node;
use crate::document::Document;
use std::alloc::{AllocError, Global};

impl Document {
    /// An equal document: the same node under each number, and the same number that is given next. Linear but for the map
    /// of numbers, which takes the logarithm of their count for each node.
    pub fn copy(&self, alloc: Global) -> Result<Document, AllocError>
        ensures { IfOk result (λ copy. state_of copy ≡ state_of self.now) }
    {
        let mut copy = Document::empty(alloc);
        for (number, key) in &self.keys {
            let node = copy_of_node(alloc, &self.nodes[*key])?;
            copy.set_next(*number);
            copy.add(node)?;
        }
        copy.set_next(self.next);
        Ok(copy)
    }
}
