//! Laws of the definition of lines. These functions do nothing: their contracts are the laws.

ghost use Rattle.line_place.specs.Laws.{SpreadOfLine};

/// No fragment of a line, with all inside it, reaches further than twelve times the lengths that come in, and what stands
/// inside its atoms.
pub fn how_far_a_line_reaches()
    ensures { SpreadOfLine }
{}
