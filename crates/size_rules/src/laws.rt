//! Laws of the inline equation. The functions do nothing: their contracts are the laws.

ghost use Rattle.size_rules.specs.Laws.{Fills, Keeps};

/// Margins, size, borders and paddings come to what is available, whatever is given.
pub fn equation_fills()
    ensures { Fills }
{}

/// A box of auto size whose limits don't change it has its margins as they are given, auto ones as 0.
pub fn margins_are_kept()
    ensures { Keeps }
{}
