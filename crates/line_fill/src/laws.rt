//! Laws of lines. These functions do nothing: their contracts are the laws.

ghost use Rattle.line_fill.specs.Laws.{DivideItems, EndWhereAllowed};

/// The lines of a paragraph hold its items in order, each once, and no line is without one.
pub fn lines_divide_the_items()
    ensures { DivideItems }
{}

/// A line ends where a break is allowed, at the last place up to which it fits, else at the first.
pub fn lines_end_where_allowed()
    ensures { EndWhereAllowed }
{}
