//! Shorthands and what they declare (docs/PROFILE/properties.md).

ghost use Rattle.std.specs.Prelude.{◌≡◌, option_map, [], ◌∷◌, Some};
ghost use Rattle.css_values.specs.Judging.{placed};
ghost use Rattle.css_values.specs.Shorthand as definitions;
ghost use Rattle.css_types.specs.declared.shorthand.Shorthand.TheVariants.{Round};
ghost use Rattle.css_values.specs.Views.{lexemes_of, Appends, TellsEach};

use crate::border::{Found, given, or_initial};
use crate::error::Stop;
use crate::judging::{Manner, put};
use crate::longhand::single;
use crate::words::is_word_alone;
use css_tokens::Token;
use css_types::{Declarations, Longhands, Shorthand, Value, Values};
use std::alloc::Global;

/// Puts the longhands that a shorthand declares behind the others; none where the value isn't one of it.
#[tactic(auto, unfolding(crate::specs::Shorthand::shorthand))]
pub(crate) fn declare_shorthand(
    alloc: Global,
    shorthand: Shorthand,
    tokens: &[Token<'_>],
    manner: Manner,
    all: &mut Declarations,
) -> Result<(), Stop<'static>>
    ensures { Appends result all.old.items all.new.items (placed manner (definitions.shorthand shorthand (lexemes_of tokens.now))) }
{
    if is_word_alone("initial", tokens) {
        return declare_initial(shorthand, manner, all);
    }
    match shorthand {
        Shorthand::Round(values, longhands) => declare_round(
            alloc, values, longhands, tokens, manner, all,
        ),
        Shorthand::Border { widths, styles } => match given(tokens) {
            Some(found) => declare_border(widths, styles, found, manner, all),
            None => Ok(()),
        },
    }
}

fn declare_initial(
    shorthand: Shorthand,
    manner: Manner,
    all: &mut Declarations,
) -> Result<(), Stop<'static>>
    ensures { Appends result all.old.items all.new.items (placed manner (definitions.initial_of shorthand)) }
{
    match shorthand {
        Shorthand::Round(_, longhands) => put_all(longhands, Value::Initial, manner, all),
        Shorthand::Border { widths, styles } => {
            put_all(widths, Value::Initial, manner, all)?;
            put_all(styles, Value::Initial, manner, all)
        }
    }
}

fn declare_border(
    widths: Longhands,
    styles: Longhands,
    found: Found,
    manner: Manner,
    all: &mut Declarations,
) -> Result<(), Stop<'static>>
    ensures { Appends result all.old.items all.new.items (placed manner (definitions.borders widths styles (Some found))) }
{
    put_all(widths, or_initial(found.width), manner, all)?;
    put_all(styles, or_initial(found.style), manner, all)
}

// Each of these longhands with this value.
fn put_all(
    longhands: Longhands,
    value: Value,
    manner: Manner,
    all: &mut Declarations,
) -> Result<(), Stop<'static>>
    ensures { Appends result all.old.items all.new.items (placed manner (definitions.all_have value longhands)) }
{
    match longhands {
        Longhands::One(one) => put(one, value, manner, all),
        Longhands::Ends { start, end } => {
            put(start, value, manner, all)?;
            put(end, value, manner, all)
        }
        Longhands::Sides {
            top,
            right,
            bottom,
            left,
        } => {
            put(top, value, manner, all)?;
            put(right, value, manner, all)?;
            put(bottom, value, manner, all)?;
            put(left, value, manner, all)
        }
    }
}

fn declare_round(
    alloc: Global,
    values: Values,
    longhands: Longhands,
    tokens: &[Token<'_>],
    manner: Manner,
    all: &mut Declarations,
) -> Result<(), Stop<'static>>
    ensures { Appends result all.old.items all.new.items (placed manner (definitions.given_by (Round values longhands) (lexemes_of tokens.now))) }
{
    match each(alloc, values, tokens)? {
        Some(given) => put_round(longhands, given.as_slice(), manner, all),
        None => Ok(()),
    }
}

// Each token as a value, if each is one.
#[tactic(auto, using(crate::proofs::Eaches::each_goes_on, crate::proofs::Eaches::each_stops, crate::proofs::Eaches::each_ends))]
fn each(
    alloc: Global,
    values: Values,
    tokens: &[Token<'_>],
) -> Result<Option<Vec<Value>>, Stop<'static>>
    ensures { TellsEach result (definitions.each values (lexemes_of tokens.now)) }
{
    let mut all = Vec::new(alloc);
    for token in tokens {
        let Some(value) = single(values, *token) else {
            return Ok(None);
        };
        all.push(value)?;
    }
    Ok(Some(all))
}

// The longhands with the values that are given for their sides.
fn put_round(
    longhands: Longhands,
    given: &[Value],
    manner: Manner,
    all: &mut Declarations,
) -> Result<(), Stop<'static>>
    ensures { Appends result all.old.items all.new.items (placed manner (definitions.given_to longhands (definitions.spread longhands (Some given.now)))) }
{
    match longhands {
        Longhands::One(one) => match given {
            [value] => put(one, *value, manner, all),
            _ => Ok(()),
        },
        Longhands::Ends { start, end } => match at_ends(given) {
            Some((at_start, at_end)) => {
                put(start, at_start, manner, all)?;
                put(end, at_end, manner, all)
            }
            None => Ok(()),
        },
        Longhands::Sides {
            top,
            right,
            bottom,
            left,
        } => match round_sides(given) {
            Some((at_top, at_right, at_bottom, at_left)) => {
                put(top, at_top, manner, all)?;
                put(right, at_right, manner, all)?;
                put(bottom, at_bottom, manner, all)?;
                put(left, at_left, manner, all)
            }
            None => Ok(()),
        },
    }
}

// One or two values for start and end (CSS Logical Properties 1, 4.2).
fn at_ends(given: &[Value]) -> Option<(Value, Value)>
    ensures { option_map (λ v. v.0 ∷ v.1 ∷ []) result ≡ definitions.at_ends given.now }
{
    match given {
        [both] => Some((*both, *both)),
        [start, end] => Some((*start, *end)),
        _ => None,
    }
}

// One to four values for top, right, bottom and left (CSS 2, 8.3).
fn round_sides(given: &[Value]) -> Option<(Value, Value, Value, Value)>
    ensures { option_map (λ v. v.0 ∷ v.1 ∷ v.2 ∷ v.3 ∷ []) result ≡ definitions.round_sides given.now }
{
    match given {
        [all] => Some((*all, *all, *all, *all)),
        [block, inline] => Some((*block, *inline, *block, *inline)),
        [top, inline, bottom] => Some((*top, *inline, *bottom, *inline)),
        [top, right, bottom, left] => Some((*top, *right, *bottom, *left)),
        _ => None,
    }
}
