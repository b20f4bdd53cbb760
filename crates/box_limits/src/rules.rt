//! Rules that turn no box (CSS Writing Modes 4, 3.1 and 7.3).

ghost use Rattle.std.specs.Prelude.{◌≡◌, not};
ghost use Rattle.std.specs.List.{list_any};
ghost use Rattle.css_types.specs.Rule.{rulings_of};
ghost use Rattle.box_limits.specs.Rules as definitions;

use css_types::{Declaration, Property, Rule};

/// Whether no declaration of these rules says how a box turns. Wherever such rules come or go among an author's rules, they
/// bring no box past the limit. Takes no memory.
pub fn turn_none(rules: &[Rule]) -> bool
    ensures { result ≡ definitions.turn_none (rulings_of rules.now) }
{
    rules.iter().all(
        |rule| -> bool
            ensures { result ≡ not (list_any definitions.turns rule.now.declarations.value.items) }
        { !has_turning(&rule.declarations) },
    )
}

fn has_turning(declarations: &[Declaration]) -> bool
    ensures { result ≡ list_any definitions.turns declarations.now }
{
    declarations.iter().any(
        |declaration| -> bool
            ensures { result ≡ definitions.turns declaration.now }
        { turns(declaration) },
    )
}

fn turns(declaration: &Declaration) -> bool
    ensures { result ≡ definitions.turns declaration.now }
{
    declaration.property == Property::Display || declaration.property == Property::WritingMode
}
