//! What a token is (CSS Syntax 3, 4).

/// A token of a value (CSS Syntax 3, 4). Numbers are in hundredths, cut after the second decimal; one of more than
/// seven digits before the point counts as 9,999,999.99.
#[derive(Clone, Copy, Debug, PartialEq, Eq)]
pub enum Token<'a> {
    /// A name, as it is written.
    Name(&'a str),
    /// A name directly before a `(`, and that `(`.
    Function(&'a str),
    Number(i64),
    Percentage(i64),
    /// A number directly before a name, its unit.
    Dimension(i64, &'a str),
    /// A string, as it is written between its quotes.
    Quoted(&'a str),
    /// The word directly behind a `#`.
    Hash(&'a str),
    /// A `(` that stands directly behind no name.
    Round,
    /// A `[`.
    Square,
    /// Any other sign of ASCII, as its byte.
    Sign(u8),
}
