//! A stack, in a list whose end is its top.

ghost use Rattle.std.specs.Prelude.{◌≡◌, ◌∷◌, [], IfNone, IfSome, OnOk};
ghost use Rattle.bidi_explicit.specs.Stack.{stacked};

use std::alloc::{AllocError, Global};

/// Values of which the one that was pushed last is popped first.
#[derive(Drop)]
pub(crate) struct Stack<T> {
    // The last one is the top.
    pub(crate) held: Vec<T>,
}

impl<T: Copy> Stack<T> {
    pub(crate) fn new(alloc: Global) -> Stack<T>
        ensures { stacked result ≡ [] }
    {
        Stack {
            held: Vec::new(alloc),
        }
    }

    pub(crate) fn push(&mut self, value: T) -> Result<(), AllocError>
        ensures { OnOk result (stacked self.new ≡ value ∷ stacked self.old) }
    {
        self.held.push(value)?;
        Ok(())
    }

    pub(crate) fn pop(&mut self) -> Option<T>
        ensures some { IfSome result (λ top. stacked self.old ≡ top ∷ stacked self.new) }
        ensures none { IfNone result ((stacked self.old ≡ []) × (stacked self.new ≡ [])) }
    {
        self.held.pop()
    }
}
