//! Where a text is cut.

ghost use Rattle.std.specs.Prelude.{◌≡◌, ◌++◌};
ghost use Rattle.reading.specs.Cuts.{EndsWith};
ghost use Rattle.css_tokens.specs.Cuts.{BeginsInAscii};

// The text before the bytes with which it ends, and these as a text.
pub(crate) fn cut_before<'a>(text: &'a str, rest: &[u8]) -> (&'a str, &'a str)
    requires ends { EndsWith text.now rest.now }
    requires ascii { BeginsInAscii rest.now }
    ensures parts { text.now ≡ result.0.now ++ result.1.now }
    ensures rest { result.1.now ≡ rest.now }
{
    text.split_at(text.len() - rest.len())
}
