//! Laws of computed styles. These functions do nothing: their contracts are the laws.

ghost use Rattle.computed.specs.Laws.{Inherits, Turns};

/// An element for which nothing won has its parent's values in how text is set, and else the initial ones.
pub fn nothing_won_inherits()
    ensures { Inherits }
{}

/// A box of another mode than its parent's is neither inline nor a block.
pub fn another_mode_turns()
    ensures { Turns }
{}
