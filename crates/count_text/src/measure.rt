//! What is made of a text.

ghost use Rattle.std.specs.Prelude.{◌≡◌, Some, None, codes};
ghost use Rattle.count_text.specs.declared.measure.Measure.TheVariants.{Read, Levels, Order, Units, VerticalUnits};

/// What is made of a text.
#[derive(Clone, Copy, PartialEq, Eq)]
pub(crate) enum Measure {
    /// A list of its characters.
    Read,
    /// Its levels.
    Levels,
    /// Its levels, and the order of one line.
    Order,
    /// Its units in horizontal lines.
    Units,
    /// Its units in lines from top to bottom.
    VerticalUnits,
}

/// What this word asks for.
pub(crate) fn measure_of(word: &str) -> Option<Measure>
    ensures read { result ≡ Some Read → word.now ≡ codes "read" }
    ensures levels { result ≡ Some Levels → word.now ≡ codes "levels" }
    ensures order { result ≡ Some Order → word.now ≡ codes "order" }
    ensures units { result ≡ Some Units → word.now ≡ codes "units" }
    ensures vertical { result ≡ Some VerticalUnits → word.now ≡ codes "vertical-units" }
{
    match word {
        "read" => Some(Measure::Read),
        "levels" => Some(Measure::Levels),
        "order" => Some(Measure::Order),
        "units" => Some(Measure::Units),
        "vertical-units" => Some(Measure::VerticalUnits),
        _ => None,
    }
}
