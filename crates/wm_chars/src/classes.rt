//! The classes of characters: the bidi classes (UAX 9, table 4) with the sets of them that its rules speak of, the
//! orientations (UAX 50), the break classes, and the sides of brackets.

ghost use Rattle.std.specs.Prelude.{◌≡◌};
ghost use Rattle.wm_chars.specs.Classes as classes;

/// The bidi class of a character (UAX 9, table 4). The class BN is not among them.
#[derive(Clone, Copy, Debug, PartialEq, Eq)]
pub enum BidiClass {
    L,
    R,
    AL,
    EN,
    ES,
    ET,
    AN,
    CS,
    NSM,
    B,
    S,
    WS,
    ON,
    LRE,
    LRO,
    RLE,
    RLO,
    PDF,
    LRI,
    RLI,
    FSI,
    PDI,
}

/// How a character stands in a vertical line of mixed orientation (UAX 50): R is turned by a quarter to
/// the right, V is upright.
#[derive(Clone, Copy, Debug, PartialEq, Eq)]
pub enum Orient {
    R,
    V,
}

/// What a character means for the places where a line may end. These classes are this project's own; UAX 14
/// has no part in them.
#[derive(Clone, Copy, Debug, PartialEq, Eq)]
pub enum BreakClass {
    Space,
    Open,
    Close,
    Glue,
    Ideographic,
    Control,
    Other,
}

/// One side of a pair of brackets: whether it opens the pair, and the other side (UAX 9, 3.1.3).
#[derive(Clone, Copy, Debug, PartialEq, Eq)]
pub struct Bracket {
    pub opens: bool,
    pub partner: char,
}

impl BidiClass {
    /// Is this a strong class (UAX 9, table 4)?
    pub fn is_strong(self) -> bool
        ensures { result ≡ classes.is_strong self }
    {
        matches!(self, BidiClass::L | BidiClass::R | BidiClass::AL)
    }

    /// Does this begin an embedding or an override (UAX 9, BD10)?
    pub fn is_embedding_initiator(self) -> bool
        ensures { result ≡ classes.is_embedding_initiator self }
    {
        matches!(
            self,
            BidiClass::LRE | BidiClass::LRO | BidiClass::RLE | BidiClass::RLO
        )
    }

    /// Does X9 remove this (UAX 9)? Embeddings, overrides and their PDF take no part in the rules behind it. BN, which
    /// it removes too, is not among the classes.
    pub fn is_removed(self) -> bool
        ensures { result ≡ classes.is_removed self }
    {
        self == BidiClass::PDF || self.is_embedding_initiator()
    }

    /// Does this begin an isolate (UAX 9, BD8)?
    pub fn is_isolate_initiator(self) -> bool
        ensures { result ≡ classes.is_isolate_initiator self }
    {
        matches!(self, BidiClass::LRI | BidiClass::RLI | BidiClass::FSI)
    }

    /// Does this begin or end an isolate (UAX 9, table 4: the isolate formatting characters)?
    pub fn is_isolate_formatting(self) -> bool
        ensures { result ≡ classes.is_isolate_formatting self }
    {
        self == BidiClass::PDI || self.is_isolate_initiator()
    }

    /// Is this neutral for N1 and N2, which call the set NI (UAX 9, 3.3.5)?
    pub fn is_neutral(self) -> bool
        ensures { result ≡ classes.is_neutral self }
    {
        matches!(
            self,
            BidiClass::B | BidiClass::S | BidiClass::WS | BidiClass::ON
        ) || self.is_isolate_formatting()
    }
}
