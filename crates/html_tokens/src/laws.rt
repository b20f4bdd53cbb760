//! The laws between what is read and the grammar. These functions do nothing: their contracts are the laws.

ghost use Rattle.std.specs.Prelude.{◌≡◌, ◌≤◌, length, ℕ, true, false, List, ◌∷◌, ◌++◌, codes, Err, ◌⊎◌, ◌==◌, ◌||◌};
ghost use Rattle.reading.specs.Readers.{can_read, next_is, starts};
ghost use Rattle.reading.specs.Placed.{IsViableInPlace, SpellsPlaced};
ghost use Rattle.reading.specs.Places.{IsLocal, IsViable, StopsInPlace};
ghost use Rattle.reading.specs.Spelling.{Anything, Spells};
ghost use Rattle.reading.specs.White.{is_white, spaces};
ghost use Rattle.html_tokens.specs.Characters.{is_name_byte};
ghost use Rattle.html_tokens.specs.Grammar as grammar;
ghost use Rattle.html_tokens.specs.Written.{Attribute};
ghost use Rattle.html_tokens.specs.Lexing as readers;
ghost use Rattle.html_tokens.specs.Text as texts;
ghost use Rattle.html_tokens.specs.Text.{IsOfRepertoire};
ghost use Rattle.html_tokens.specs.declared.raw_text.RawEnd.{RawEnd};

/// White space, names and end tags are read as they are spelled.
pub fn names_spell()
    ensures spaces { Spells spaces grammar.IsSpaces (λ rest. next_is is_white rest ≡ false) }
    ensures names { Spells readers.name grammar.IsName (λ rest. next_is is_name_byte rest ≡ false) }
    ensures end_names { Spells readers.end_name grammar.IsEndName Anything }
{}

/// Comments, and what runs up to an end, are read as they are spelled.
pub fn comments_spell()
    ensures runs { (end_ : RawEnd) → Spells (readers.raw end_) (grammar.IsRaw end_) Anything }
    ensures comments { Spells readers.comment grammar.IsComment Anything }
    ensures misc { (mark : List ℕ) → ((more : List ℕ) → starts mark (codes "<!--" ++ more) ≡ true)
        → Spells (readers.misc mark) grammar.IsMisc (λ rest. readers.in_misc mark rest ≡ false) }
    ensures doctype { Spells readers.doctype grammar.IsDoctype Anything }
{}

/// Characters and references are read as they are spelled.
pub fn references_spell()
    ensures characters { Spells readers.character grammar.IsCharacter Anything }
    ensures references { Spells readers.reference grammar.IsReference Anything }
{}

/// Attributes are read as they are spelled, where the end of a tag comes behind them.
pub fn attributes_spell()
    ensures values { Spells readers.value grammar.IsValue (λ rest. can_read readers.equals rest ≡ false) }
    ensures attributes { SpellsPlaced readers.attributes grammar.AreAttributes
        (λ rest. (more : List ℕ) × ((rest ≡ 62 ∷ more) ⊎ (rest ≡ 47 ∷ more))) }
{}

/// Text with comments in it is read as it is spelled.
pub fn texts_spell()
    ensures { Spells texts.gap grammar.IsGap (λ rest. texts.in_text rest ≡ false) }
{}

/// Names, end tags, comments, the doctype and references stop at the first byte with which none of them goes on.
pub fn pieces_stop_in_place()
    ensures end_names { IsLocal readers.end_name × IsViable readers.end_name grammar.IsEndName }
    ensures comments { IsLocal readers.comment × IsViable readers.comment grammar.IsComment }
    ensures doctype { IsLocal readers.doctype × IsViable readers.doctype grammar.IsDoctype }
    ensures references { IsLocal readers.reference × IsViable readers.reference grammar.IsReference }
{}

/// Attributes stop at the first byte with which they don't go on.
pub fn attributes_stop_in_place()
    ensures stops { StopsInPlace readers.attributes }
    ensures viable { IsViableInPlace readers.attributes grammar.AreAttributes }
    // No attributes begin with what was read and the next byte.
    ensures no_further { (text later more rest : List ℕ) (next : ℕ) (list : List Attribute) → readers.attributes (text ++ next ∷ later) ≡ Err (next ∷ later)
        → grammar.AreAttributes (text ++ next ∷ more) rest list → (next_is (λ byte. byte == 62 || byte == 47) rest ≡ true) → ⊥ }
{}

/// White space with comments stops at the first byte with which it doesn't go on.
pub fn misc_stops_in_place()
    ensures stops { StopsInPlace (readers.misc (codes "<!")) × IsViable (readers.misc (codes "<!")) grammar.IsMisc }
    // No such text begins with what was read and the next byte.
    ensures no_further { (text later more rest : List ℕ) (next : ℕ) → readers.misc (codes "<!") (text ++ next ∷ later) ≡ Err (next ∷ later)
        → grammar.IsMisc (text ++ next ∷ more) tt → readers.in_misc (codes "<!") rest ≡ false → ⊥ }
{}

/// The letters of text with comments in it are of the repertoire, and not longer than what they were read from.
pub fn texts_are_of_the_repertoire()
    ensures repertoire { (text letters : List ℕ) → grammar.IsGap text letters → IsOfRepertoire letters }
    ensures shorter { (text letters : List ℕ) → grammar.IsGap text letters → length letters ≤ length text }
{}
