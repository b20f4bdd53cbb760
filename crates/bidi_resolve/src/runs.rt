//! The isolating run sequences of a bidi paragraph, in its lists.

ghost use Rattle.bidi_explicit.specs.Spans.{AreSpans, span_places};
ghost use Rattle.bidi_resolve.specs.Paragraph.{AreAsMany};
ghost use Rattle.std.specs.Prelude.{◌<◌, ◌≤◌, All, length};

use bidi_explicit::{FlatRuns, Levels};

/// The characters of a paragraph, their levels and classes as X1 to X9 leave them, and the sequences that X10 makes.
#[derive(Clone, Copy)]
pub(crate) struct ParagraphRuns<'a> {
    pub(crate) chars: &'a [char],
    pub(crate) levels: &'a Levels,
    pub(crate) runs: &'a FlatRuns,
    ghost lists: { AreAsMany levels.now (length chars.now) },
    ghost spans: { AreSpans runs.now.places.items runs.now.spans.items },
    ghost places: { All (λ span. All (λ place. place < length chars.now) (span_places runs.now.places.items span)) runs.now.spans.items },
    ghost most: { All (λ level. level ≤ 125) levels.now.level.items },
}
