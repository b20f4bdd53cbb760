//! A law of explicit levels. The function does nothing: its contract is the law.

ghost use Rattle.bidi_explicit.specs.Laws.{MatchOnOneLevel};

/// An isolate initiator and its matching PDI have one level, whether or not the isolate overflows, so that the text
/// round an isolate is resolved as one (UAX 9, X10).
pub fn matching_pdis_have_one_level()
    ensures { MatchOnOneLevel }
{}
