//! Lists of adjoining margins, as pairs of numbers (CSS 2, 8.3.1).

ghost use Rattle.std.specs.Prelude.{◌≡◌, ◌≤◌, ◌^◌, List, [], ◌∷◌, ◌++◌, ℤ, ◌+ℤ◌, unsigned_abs};
ghost use Rattle.std.specs.Int.{int_max, int_min};
ghost use Rattle.margin_collapse.specs.Margins.{collapsed};
ghost use Rattle.margin_collapse.specs.Pairs.{IsPairOf};

/// What counts of a list of adjoining margins, in units of 1/64 px: its greatest positive and its least
/// negative member, each 0 where there is none (CSS 2, 8.3.1).
#[derive(Clone, Copy, Debug, PartialEq, Eq)]
pub struct Margins {
    /// The greatest positive margin: 0 or above.
    pub positive: i64,
    /// The least negative margin: 0 or below.
    pub negative: i64,
}

impl Margins {
    /// No margins.
    pub fn none() -> Margins
        ensures { IsPairOf result [] }
    {
        Margins {
            positive: 0,
            negative: 0,
        }
    }

    /// One margin.
    pub fn of(m: i64) -> Margins
        ensures { IsPairOf result (m ∷ []) }
    {
        Margins {
            positive: m.max(0),
            negative: m.min(0),
        }
    }

    /// The margins of two lists that adjoin. A list has one pair, however it is cut in two.
    pub fn join(self, other: Margins) -> Margins
        ensures positive { result.positive ≡ int_max self.positive other.positive }
        ensures negative { result.negative ≡ int_min self.negative other.negative }
        ensures lists { (xs ys : List ℤ) → IsPairOf self xs → IsPairOf other ys → IsPairOf result (xs ++ ys) }
    {
        Margins {
            positive: self.positive.max(other.positive),
            negative: self.negative.min(other.negative),
        }
    }

    /// The one margin to which these collapse.
    pub fn value(self) -> i64
        requires positive { unsigned_abs self.positive ≤ 2 ^ 60 }
        requires negative { unsigned_abs self.negative ≤ 2 ^ 60 }
        ensures sum { result ≡ self.positive +ℤ self.negative }
        ensures list { (margins : List ℤ) → IsPairOf self margins → result ≡ collapsed margins }
    {
        self.positive + self.negative
    }
}
