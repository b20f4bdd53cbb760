//! The laws between what is read and the grammar. These functions do nothing: their contracts are the laws.

ghost use Rattle.reading.specs.Readers.{choice, refuse};
ghost use Rattle.reading.specs.Placed.{SpellsPlaced};
ghost use Rattle.reading.specs.Spelling.{Anything, Spells};
ghost use Rattle.css_tokens.specs.Grammar as grammar;
ghost use Rattle.css_tokens.specs.Lexing as readers;
ghost use Rattle.css_tokens.specs.Numbers as numbers;

/// Tokens, their parts, and what may stand between two, are read as they are spelled.
pub fn tokens_spell()
    ensures comments { Spells readers.comment grammar.IsComment Anything }
    ensures gaps { SpellsPlaced readers.gap grammar.IsGap Anything }
    ensures names { SpellsPlaced (choice readers.name_ahead readers.name refuse) grammar.IsName Anything }
    ensures hashes { SpellsPlaced (choice readers.hash_ahead readers.hash refuse) grammar.IsHash Anything }
    ensures numbers { SpellsPlaced (choice numbers.number_ahead numbers.number refuse) grammar.IsNumber Anything }
    ensures strings { Spells readers.string grammar.IsString Anything }
    ensures tokens { SpellsPlaced readers.token grammar.IsToken Anything }
{}
