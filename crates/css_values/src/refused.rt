//! Declarations that are refused, since they would change the layout without a word (docs/PROFILE/properties.md).

ghost use Rattle.std.specs.Prelude.{◌≡◌};
ghost use Rattle.css_values.specs.Judging as definitions;
ghost use Rattle.css_values.specs.Views.{lexemes_of, refusings_of, texts_of};

use crate::judging::Meaning;
use crate::names::RESETS;
use crate::words::{begins_so, is_one_alone, is_word_alone};
use css_tokens::Token;
use css_types::{REFUSALS, Refused};
use reading::{same_name, starts};

/// Is a declaration of this name and value unsupported? `has_var` says whether `var(` stands in the value.
#[tactic(auto, unfolding(crate::specs::Judging::is_unsupported, crate::specs::Judging::is_refused, crate::specs::Tables::refusals))]
pub(crate) fn is_unsupported(
    name: &str,
    has_var: bool,
    meaning: Meaning,
    tokens: &[Token<'_>],
) -> bool
    requires { meaning ≡ definitions.meaning name.now }
    ensures { result ≡ definitions.is_unsupported name.now has_var (lexemes_of tokens.now) }
{
    starts("--", name)
        || has_var
        || same_name("all", name)
        || resets_or_inherits(meaning, tokens)
        || is_refused(&REFUSALS, name, tokens)
}

// A property that isn't inherited doesn't inherit, and no shorthand does; no value takes a declaration back.
#[tactic(auto, unfolding(crate::specs::Tables::resets))]
fn resets_or_inherits(meaning: Meaning, tokens: &[Token<'_>]) -> bool
    ensures { result ≡ definitions.resets_or_inherits meaning (lexemes_of tokens.now) }
{
    let inherits = match meaning {
        Meaning::Unknown => return false,
        Meaning::Property(row) => row.inherited,
        Meaning::Shorthand(_) => false,
    };
    is_one_alone(&RESETS, tokens) || !inherits && is_word_alone("inherit", tokens)
}

// Is the value one that the table refuses for this name?
#[tactic(auto, using(crate::proofs::Anywhere::refusal_named_not, crate::proofs::Anywhere::refusal_passed, crate::proofs::Anywhere::refusal_here, crate::proofs::Anywhere::refusal_nowhere))]
fn is_refused(table: &[(&str, Refused, &[&str])], name: &str, tokens: &[Token<'_>]) -> bool
    ensures { result ≡ definitions.are_refused (refusings_of table.now) name.now (lexemes_of tokens.now) }
{
    for (property, which, names) in table {
        if same_name(property, name) && refuses(*which, names, tokens) {
            return true;
        }
    }
    false
}

fn refuses(which: Refused, names: &[&str], tokens: &[Token<'_>]) -> bool
    ensures { result ≡ definitions.refuses which (texts_of names.now) (lexemes_of tokens.now) }
{
    match which {
        Refused::Names => is_one_alone(names, tokens),
        Refused::AllBut => !is_one_alone(names, tokens),
        Refused::Beginning => begins_with(names, tokens),
    }
}

// The first token is a name or a function whose name begins with one of these.
fn begins_with(fronts: &[&str], tokens: &[Token<'_>]) -> bool
    ensures { result ≡ definitions.begins_with (texts_of fronts.now) (lexemes_of tokens.now) }
{
    match tokens {
        [Token::Name(name) | Token::Function(name), ..] => begins_so(fronts, *name),
        _ => false,
    }
}
