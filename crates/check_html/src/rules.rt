//! Laws over any rule and any answer, at one rule and one answer.

ghost use Rattle.std.specs.Prelude.{codes};
ghost use Rattle.reading.specs.Readers as readers;
ghost use Rattle.reading.specs.Grammars.{Fixed, Mapped};
ghost use Rattle.reading.specs.Spelling.{Anything};
ghost use Rattle.reading.specs.Decimals.{number, IsDecimal, NoDigit};
ghost use Rattle.reading.proofs.DecimalLaws.{decimal_spells, decimal_local, decimal_viable};
ghost use Rattle.reading.proofs.SpellLaws.{strip_spells, mapped_spells};

use html_read::laws::calls_answer_by_the_grammar;
use reading::laws::{
    Behind, PlacedRule, Rule, RuleBehind, choices_spell, enclosed_spells, none_goes_further,
    repetitions_spell, sequences_spell, views_spell,
};
use std::test::*;

/// A number below 100,000: the laws of `Rule` at a reader of this crate.
struct Number;

impl Rule<u32> for Number {
    ghost reads = { number 5 };

    ghost spelled = { IsDecimal 5 };

    ghost ends = { NoDigit };

    ghost spells = { decimal_spells 5 };
}

impl PlacedRule<u32> for Number {
    ghost local = { decimal_local 4 };

    ghost viable = { decimal_viable 4 };
}

impl Behind for Number {
    ghost ends = { NoDigit };
}

/// The unit behind a number, which is still the value.
struct Unit;

impl RuleBehind<u32, u32> for Unit {
    ghost reads = { λ n. readers.mapped (λ u. n) (readers.strip (codes "px")) };

    ghost spelled = { λ n. Mapped (λ u. n) (Fixed (codes "px")) };

    ghost ends = { Anything };

    ghost spells = { λ n. mapped_spells (λ u. n) (strip_spells (codes "px")) };
}

#[test]
fn laws_at_a_rule(_rt: HostRuntime) {
    views_spell::<u32, u32, Number>();
    enclosed_spells::<u32, Number>();
    choices_spell::<u32, Number, Number>();
    sequences_spell::<u32, u32, Number, Unit>();
    repetitions_spell::<u32, Number, Number>();
    none_goes_further::<u32, Number>();
    calls_answer_by_the_grammar::<u32>();
}
