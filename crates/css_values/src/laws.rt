//! The laws between what is read and the grammar. These functions do nothing: their contracts are the laws.

ghost use Rattle.std.specs.Prelude.{◌≡◌, ℕ, List, Ok, Option};
ghost use Rattle.reading.specs.Placed.{SpellsPlaced};
ghost use Rattle.reading.specs.Spelling.{Anything};
ghost use Rattle.css_values.specs.Declarations as readers;
ghost use Rattle.css_values.specs.Grammar as grammar;
ghost use Rattle.css_values.specs.Reports.{IsJudged, Reported, next};
ghost use Rattle.css_values.specs.Value as values;
ghost use Rattle.css_values.specs.declared.within.Within.{Within};

/// Values and declarations are read as they are spelled.
pub fn declarations_spell()
    ensures values { (within : Within) → SpellsPlaced (values.value within) (grammar.IsValue within) Anything }
    ensures declarations { (within : Within) (end_ : ℕ) → SpellsPlaced (readers.declarations within end_) (grammar.AreDeclarations within end_) Anything }
{}

/// The declaration that is told next is the one that reading judges there.
pub fn reports_are_judged()
    ensures { (within : Within) (end_ : ℕ) (text rest : List ℕ) (told : Option Reported) → next within end_ text ≡ Ok (told, rest) → IsJudged within end_ text rest told }
{}
