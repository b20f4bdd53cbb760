//! A text cut in two.

ghost use Rattle.std.specs.Prelude.{◌≡◌, ◌++◌};
ghost use Rattle.reading.specs.Cuts.{EndsWith};

/// The front of the text that `rest` leaves, where the text ends with `rest`.
pub fn front_of<'a>(text: &'a str, rest: &str) -> &'a str
    requires { EndsWith text.now rest.now }
    ensures { text.now ≡ result.now ++ rest.now }
{
    text.split_at(text.len() - rest.len()).0
}
