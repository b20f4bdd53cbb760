//! The laws of the ways to build readers. These functions do nothing: their contracts are the laws, each
//! for every reader that a `Rule` gives.

ghost use Rattle.std.specs.Prelude.{◌≡◌, ◌<◌, ℕ, suc, Bool, true, false, List, [], ◌∷◌, ◌++◌, length, map, Err};
ghost use Rattle.std.specs.Char.{is_ascii_digit, to_ascii_lowercase};
ghost use Rattle.reading.specs.Readers as readers;
ghost use Rattle.reading.specs.Readers.{Reader};
ghost use Rattle.reading.specs.Decimals as decimals;
ghost use Rattle.reading.specs.Decimals.{IsDecimal, NoDigit};
ghost use Rattle.reading.specs.Closings.{closing, Closing};
ghost use Rattle.reading.specs.Grammars.{Grammar, Fixed, OneOf, RunOf, EitherCase, OneWord, UpTo, Given, Seq, Mapped, Either, Optional, After, Between, Each, Joined, AllPass};
ghost use Rattle.reading.specs.Placed.{PlacedGrammar, Anywhere, PlacedSeq, PlacedMapped, PlacedEither, SpellsPlaced};
ghost use Rattle.reading.specs.Places.{SeesNext, IsLocal, IsViable, GoesOnFrom, StopsInPlace};
ghost use Rattle.reading.specs.Spelling.{Anything, Spells, IsTestOf, SeesWithin};
ghost use Rattle.reading.specs.Words.{all_differ, longest_first, all_of};

/// A reader of values `A`, with the grammar that it spells.
pub trait Rule<A> {
    ghost reads: { Reader A };

    ghost spelled: { List ℕ → A → Type 0 };

    /// What may come behind a text of the grammar.
    ghost ends: { List ℕ → Type 0 };

    ghost spells: { Spells reads spelled ends };
}

/// A reader of texts, with the grammar that it spells.
pub trait TextRule {
    ghost reads: { Reader (List ℕ) };

    ghost spelled: { List ℕ → List ℕ → Type 0 };

    /// What may come behind a text of the grammar.
    ghost ends: { List ℕ → Type 0 };

    ghost spells: { Spells reads spelled ends };
}

/// A reader of values `B` for each value `A` that was read before it.
pub trait RuleBehind<A, B> {
    ghost reads: { A → Reader B };

    ghost spelled: { A → List ℕ → B → Type 0 };

    ghost ends: { List ℕ → Type 0 };

    ghost spells: { (before : A) → Spells (reads before) (spelled before) ends };
}

/// Which bytes may come behind a list of items.
pub trait Behind {
    ghost ends: { List ℕ → Type 0 };
}

/// A rule whose reader stops at the first byte with which no text of the grammar goes on.
pub trait PlacedRule<A>: Rule<A> {
    ghost local: { IsLocal Self.reads };

    ghost viable: { IsViable Self.reads Self.spelled };
}

/// Such a rule for texts.
pub trait PlacedTextRule: TextRule {
    ghost local: { IsLocal Self.reads };

    ghost viable: { IsViable Self.reads Self.spelled };
}

/// A rule whose reader stops in place, while it may look further where it reads on.
pub trait StoppingRule<A>: Rule<A> {
    ghost stops: { StopsInPlace Self.reads };
}

/// Such rules for each value that was read before. Each has a text.
pub trait PlacedRuleBehind<A, B>: RuleBehind<A, B> {
    ghost local: { (before : A) → IsLocal (Self.reads before) };

    ghost viable: { (before : A) → IsViable (Self.reads before) (Self.spelled before) };

    ghost some: { (before : A) → GoesOnFrom (Self.spelled before) [] };
}

/// A reader of values `A`, with a grammar whose values may speak of what stands behind a text.
pub trait RuleInPlace<A> {
    ghost reads: { Reader A };

    ghost spelled: { List ℕ → List ℕ → A → Type 0 };

    /// What may come behind a text of the grammar.
    ghost ends: { List ℕ → Type 0 };

    ghost spells: { SpellsPlaced reads spelled ends };
}

/// Such a reader for each value `A` that was read before it.
pub trait RuleInPlaceBehind<A, B> {
    ghost reads: { A → Reader B };

    ghost spelled: { A → List ℕ → List ℕ → B → Type 0 };

    ghost ends: { List ℕ → Type 0 };

    ghost spells: { (before : A) → SpellsPlaced (reads before) (spelled before) ends };
}

/// A fixed text.
pub fn texts_spell()
    ensures { (text : List ℕ) → Spells (readers.strip text) (Fixed text) Anything }
{}

/// One byte that passes a test.
pub fn single_bytes_spell()
    ensures { (test : ℕ → Bool) → Spells (readers.one_of test) (OneOf test) Anything }
{}

/// Decimal numbers, where no digit comes behind them.
pub fn decimals_spell()
    ensures { (most : ℕ) → Spells (decimals.number most) (IsDecimal most) NoDigit }
{}

/// One after the other.
pub fn sequences_spell<A, B, R: Rule<A>, S: RuleBehind<A, B>>()
    ensures { ((x : A) (y : B) (text rest : List ℕ) → S.spelled x text y → S.ends rest → R.ends (text ++ rest))
        → Spells (readers.follow R.reads S.reads) (Seq R.spelled S.spelled) S.ends }
{}

/// Another view of what is read.
pub fn views_spell<A, B, R: Rule<A>>()
    ensures { (view : A → B) → Spells (readers.mapped view R.reads) (Mapped view R.spelled) R.ends }
{}

/// What is read between two texts.
pub fn enclosed_spells<A, R: Rule<A>>()
    ensures { (opening closing : List ℕ) → ((rest : List ℕ) → R.ends (closing ++ rest))
        → Spells (readers.between opening R.reads closing) (Between opening R.spelled closing) Anything }
{}

/// One or the other, by a test of the next bytes.
pub fn choices_spell<A, R: Rule<A>, S: Rule<A>>()
    ensures { (test : List ℕ → Bool) → ((rest : List ℕ) → S.ends rest → R.ends rest)
        → ((text : List ℕ) (x : A) (rest : List ℕ) → R.spelled text x → S.ends rest → test (text ++ rest) ≡ true)
        → ((text : List ℕ) (x : A) (rest : List ℕ) → S.spelled text x → S.ends rest → test (text ++ rest) ≡ false)
        → Spells (readers.choice test R.reads S.reads) (Either R.spelled S.spelled) S.ends }
{}

/// What may be missing, by a test of the next bytes.
pub fn options_spell<A, R: Rule<A>>()
    ensures { (test : List ℕ → Bool)
        → ((text : List ℕ) (x : A) (rest : List ℕ) → R.spelled text x → R.ends rest → test (text ++ rest) ≡ true)
        → ((rest : List ℕ) → R.ends rest → test rest ≡ false)
        → Spells (readers.optional test R.reads) (Optional R.spelled) R.ends }
{}

/// What is read behind a text.
pub fn introduced_spells<A, R: Rule<A>>()
    ensures { (text : List ℕ) → Spells (readers.after text R.reads) (After text R.spelled) R.ends }
{}

/// As often as a test of the next bytes says.
pub fn repetitions_spell<A, R: Rule<A>, M: Behind>()
    ensures { (test : List ℕ → Bool) → IsTestOf test R.spelled R.ends M.ends
        → Spells (readers.many test R.reads) (Each R.spelled) M.ends }
{}

/// Pieces of text as often as a test of the next bytes says, joined.
pub fn joined_pieces_spell<R: TextRule, M: Behind>()
    ensures { (test : List ℕ → Bool) → IsTestOf test R.spelled R.ends M.ends
        → Spells (readers.joined test R.reads) (Joined R.spelled) M.ends }
{}

/// With another word for where it stops, a reader reads what it did.
pub fn tellings_spell<A, E, R: Rule<A>>()
    ensures { (told : List ℕ → E) → Spells (readers.telling told R.reads) R.spelled R.ends }
{}

/// Bytes that pass a test, where none comes behind them.
pub fn runs_spell()
    ensures { (test : ℕ → Bool) → Spells (readers.run_of test) (RunOf test) (λ rest. readers.next_is test rest ≡ false) }
{}

/// Over the bytes that pass a test, where none comes behind them.
pub fn skipped_runs_spell()
    ensures { (test : ℕ → Bool) → Spells (readers.skip test) (λ text u. AllPass test text) (λ rest. readers.next_is test rest ≡ false) }
{}

/// A text in either case.
pub fn cased_texts_spell()
    ensures { (word : List ℕ) → Spells (readers.strip_either_case word) (EitherCase word) Anything }
{}

/// One text of a table, where each two differ at a byte that both have.
pub fn words_spell<A>()
    ensures { (words : List (List ℕ × A)) → all_differ words ≡ true → Spells (readers.one_word words) (OneWord words) Anything }
{}

/// One text of a table, where no text begins with one before it, and none of their bytes comes behind them.
pub fn longest_words_spell<A>()
    ensures { (test : ℕ → Bool) (words : List (List ℕ × A)) → all_of test words ≡ true → longest_first words ≡ true
        → Spells (readers.one_word words) (OneWord words) (λ rest. readers.next_is test rest ≡ false) }
{}

/// A text up to the first place where a reader can read.
pub fn texts_up_to_spell<A, R: Rule<A>>()
    ensures { SeesWithin R.reads R.spelled → Spells (readers.up_to R.reads) (UpTo R.reads R.spelled) R.ends }
{}

/// What fixed texts and closings read at a place hangs on the bytes up to the end of the next such text.
pub fn ends_see_within()
    ensures texts { (text : List ℕ) → SeesWithin (readers.strip text) (Fixed text) }
    ensures closings { (opening word : List ℕ) (test : ℕ → Bool) (last : ℕ) (behind : List ℕ) → test last ≡ false
        → SeesWithin (closing opening word test (last ∷ behind)) (Closing opening word test (last ∷ behind)) }
{}

/// A closing, where its run can't take the byte behind it.
pub fn closings_spell()
    ensures { (opening word : List ℕ) (test : ℕ → Bool) (last : ℕ) (behind : List ℕ) → test last ≡ false
        → Spells (closing opening word test (last ∷ behind)) (Closing opening word test (last ∷ behind)) Anything }
{}

/// A grammar with no word on what stands behind a text, wherever the text stands.
pub fn rules_spell_anywhere<A, R: Rule<A>>()
    ensures { SpellsPlaced R.reads (Anywhere R.spelled) R.ends }
{}

/// One after the other, in their places.
pub fn sequences_spell_in_place<A, B, R: RuleInPlace<A>, S: RuleInPlaceBehind<A, B>>()
    ensures { ((x : A) (y : B) (text rest : List ℕ) → S.spelled x text rest y → S.ends rest → R.ends (text ++ rest))
        → SpellsPlaced (readers.follow R.reads S.reads) (PlacedSeq R.spelled S.spelled) S.ends }
{}

/// Another view of what is read, in its place.
pub fn views_spell_in_place<A, B, R: RuleInPlace<A>>()
    ensures { (view : A → B) → SpellsPlaced (readers.mapped view R.reads) (PlacedMapped view R.spelled) R.ends }
{}

/// One or the other in its place, by a test of the next bytes.
pub fn choices_spell_in_place<A, R: RuleInPlace<A>, S: RuleInPlace<A>>()
    ensures { (test : List ℕ → Bool) → ((rest : List ℕ) → S.ends rest → R.ends rest)
        → ((text : List ℕ) (x : A) (rest : List ℕ) → R.spelled text rest x → S.ends rest → test (text ++ rest) ≡ true)
        → ((text : List ℕ) (x : A) (rest : List ℕ) → S.spelled text rest x → S.ends rest → test (text ++ rest) ≡ false)
        → SpellsPlaced (readers.choice test R.reads S.reads) (PlacedEither R.spelled S.spelled) S.ends }
{}

/// A fixed text stops at the first byte that differs.
pub fn texts_stop_in_place()
    ensures local { (text : List ℕ) → IsLocal (readers.strip text) }
    ensures viable { (text : List ℕ) → IsViable (readers.strip text) (Fixed text) }
{}

/// A run of bytes that pass a test stops nowhere.
pub fn runs_stop_in_place()
    ensures local { (test : ℕ → Bool) → IsLocal (readers.run_of test) }
    ensures viable { (test : ℕ → Bool) → IsViable (readers.run_of test) (RunOf test) }
{}

/// A text in either case stops at the first byte that differs, where its own letters are small.
pub fn cased_texts_stop_in_place()
    ensures local { (word : List ℕ) → IsLocal (readers.strip_either_case word) }
    ensures viable { (word : List ℕ) → map to_ascii_lowercase word ≡ word → IsViable (readers.strip_either_case word) (EitherCase word) }
{}

/// A closing stops at the first byte that differs, where the letters of its word are small.
pub fn closings_stop_in_place()
    ensures local { (opening word : List ℕ) (test : ℕ → Bool) (last : List ℕ) → IsLocal (closing opening word test last) }
    ensures viable { (opening word : List ℕ) (test : ℕ → Bool) (last : List ℕ) → map to_ascii_lowercase word ≡ word
        → IsViable (closing opening word test last) (Closing opening word test last) }
{}

/// A number stops where a digit is missing.
pub fn decimals_stop_in_place()
    ensures local { (more : ℕ) → IsLocal (decimals.number (suc more)) }
    ensures viable { (more : ℕ) → IsViable (decimals.number (suc more)) (IsDecimal (suc more)) }
{}

/// A run stops nowhere, also one that is skipped.
pub fn runs_stop_nowhere()
    ensures local { (test : ℕ → Bool) → IsLocal (readers.skip test) }
    ensures viable { (test : ℕ → Bool) → IsViable (readers.skip test) (λ text u. AllPass test text) }
{}

/// A text up to where a reader can read stops at the end of the bytes alone.
pub fn texts_up_to_stop_in_place<A, R: Rule<A>>()
    ensures local { ((rest : List ℕ) → R.ends rest) → SeesWithin R.reads R.spelled → IsLocal (readers.up_to R.reads) }
    ensures viable { ((rest : List ℕ) → R.ends rest) → SeesWithin R.reads R.spelled → GoesOnFrom R.spelled []
        → IsViable (readers.up_to R.reads) (UpTo R.reads R.spelled) }
{}

/// A text of a table stops behind the longest front that the bytes share with one.
pub fn words_stop_in_place<A>()
    ensures local { (word : List ℕ × A) (words : List (List ℕ × A)) → all_differ (word ∷ words) ≡ true → IsLocal (readers.one_word (word ∷ words)) }
    ensures viable { (word : List ℕ × A) (words : List (List ℕ × A)) → IsViable (readers.one_word (word ∷ words)) (OneWord (word ∷ words)) }
{}

/// One after the other stops where the first stops, or behind it where the second stops.
pub fn sequences_stop_in_place<A, B, R: PlacedRule<A>, S: PlacedRuleBehind<A, B>>()
    ensures local { IsLocal (readers.follow R.reads S.reads) }
    ensures viable { IsViable (readers.follow R.reads S.reads) (Seq R.spelled S.spelled) }
{}

/// Another view of what is read stops where the reader stops.
pub fn views_stop_in_place<A, B, R: PlacedRule<A>>()
    ensures local { (view : A → B) → IsLocal (readers.mapped view R.reads) }
    ensures viable { (view : A → B) → IsViable (readers.mapped view R.reads) (Mapped view R.spelled) }
{}

/// One or the other stops where the chosen one stops, if the test looks at the next byte alone.
pub fn choices_stop_in_place<A, R: PlacedRule<A>, S: PlacedRule<A>>()
    ensures local { (test : List ℕ → Bool) → SeesNext test → IsLocal (readers.choice test R.reads S.reads) }
    ensures viable { (test : List ℕ → Bool) → IsViable (readers.choice test R.reads S.reads) (Either R.spelled S.spelled) }
{}

/// What may be missing stops where it stops, if the test looks at the next byte alone.
pub fn options_stop_in_place<A, R: PlacedRule<A>>()
    ensures local { (test : List ℕ → Bool) → SeesNext test → IsLocal (readers.optional test R.reads) }
    ensures viable { (test : List ℕ → Bool) → IsViable (readers.optional test R.reads) (Optional R.spelled) }
{}

/// What is read behind a text stops within the text or where it stops itself, if it has a text.
pub fn introduced_stop_in_place<A, R: PlacedRule<A>>()
    ensures local { (text : List ℕ) → IsLocal (readers.after text R.reads) }
    ensures viable { (text : List ℕ) → GoesOnFrom R.spelled [] → IsViable (readers.after text R.reads) (After text R.spelled) }
{}

/// What is read between two texts stops within one of them or where it stops itself, if it has a text.
pub fn enclosed_stop_in_place<A, R: PlacedRule<A>>()
    ensures local { (opening closing : List ℕ) → IsLocal (readers.between opening R.reads closing) }
    ensures viable { (opening closing : List ℕ) → GoesOnFrom R.spelled []
        → IsViable (readers.between opening R.reads closing) (Between opening R.spelled closing) }
{}

/// A list of items stops within an item, if the test looks at the next byte alone.
pub fn repetitions_stop_in_place<A, R: PlacedRule<A>, M: Behind>()
    ensures local { (test : List ℕ → Bool) → IsTestOf test R.spelled R.ends M.ends → SeesNext test → IsLocal (readers.many test R.reads) }
    ensures viable { (test : List ℕ → Bool) → IsViable (readers.many test R.reads) (Each R.spelled) }
{}

/// Joined pieces stop within a piece, if the test looks at the next byte alone.
pub fn joined_pieces_stop_in_place<R: PlacedTextRule, M: Behind>()
    ensures local { (test : List ℕ → Bool) → IsTestOf test R.spelled R.ends M.ends → SeesNext test → IsLocal (readers.joined test R.reads) }
    ensures viable { (test : List ℕ → Bool) → IsViable (readers.joined test R.reads) (Joined R.spelled) }
{}

/// No text of the grammar begins with what was read and the byte where the reader stopped.
pub fn none_goes_further<A, R: PlacedRule<A>>()
    ensures { (text later more rest : List ℕ) (next : ℕ) (x : A) → R.reads (text ++ next ∷ later) ≡ Err (next ∷ later)
        → R.spelled (text ++ next ∷ more) x → R.ends rest → ⊥ }
{}

/// No text of the grammar begins with what was read and the byte where the reader stopped, for readers that may look
/// further where they read on.
pub fn none_goes_further_where_it_stops<A, R: StoppingRule<A>>()
    ensures { (text later more rest : List ℕ) (next : ℕ) (x : A) → R.reads (text ++ next ∷ later) ≡ Err (next ∷ later)
        → R.spelled (text ++ next ∷ more) x → R.ends rest → ⊥ }
{}
