//! What a declaration declares once it is wholly read.

ghost use Rattle.std.specs.Prelude.{◌≡◌, [], ◌∷◌, get_or, map};
ghost use Rattle.reading.specs.Names.{lowered, named, words_of};
ghost use Rattle.css_values.specs.ByLength.{rows_at};
ghost use Rattle.css_values.specs.Tables.{properties};
ghost use Rattle.css_values.specs.Judging as definitions;
ghost use Rattle.css_values.specs.Judging.{placed};
ghost use Rattle.css_values.specs.Views.{lexemes_of, Appends};

use crate::by_length::PLACES_BY_LENGTH;
use crate::error::Stop;
use crate::longhand::longhand;
use crate::shorthand::declare_shorthand;
use css_tokens::Token;
use css_types::{
    Declaration, Declarations, PROPERTIES, Property, PropertyRow, SHORTHANDS, Shorthand, Value,
};
use reading::{named, same_name};
use std::alloc::Global;

/// What a name stands for.
#[derive(Clone, Copy)]
pub(crate) enum Meaning {
    Property(PropertyRow),
    Shorthand(Shorthand),
    Unknown,
}

/// How a declaration declares: whether it is `!important`, and the place of its name.
#[derive(Clone, Copy)]
pub(crate) struct Manner {
    pub important: bool,
    pub place: usize,
}

/// What the name stands for, in either case.
#[tactic(auto, unfolding(crate::specs::Judging::meaning, crate::specs::Tables::shorthands))]
pub(crate) fn meaning_of(name: &str) -> Meaning
    ensures { result ≡ definitions.meaning name.now }
{
    if let Some(row) = property_named(name) {
        Meaning::Property(row)
    } else if let Some(shorthand) = named(&SHORTHANDS, name) {
        Meaning::Shorthand(shorthand)
    } else {
        Meaning::Unknown
    }
}

// The row of a property by its name, in either case. Only names of the same length are compared.
fn property_named(name: &str) -> Option<PropertyRow>
    ensures { result ≡ named properties (lowered name.now) }
{
    let places = places_of_length(&PLACES_BY_LENGTH, name.len());
    named_at(&PROPERTIES, places, name)
}

// The places under this length; none where it has no list.
fn places_of_length<'a>(table: &[&'a [usize]], length: usize) -> &'a [usize]
    ensures { result.now ≡ get_or (map (λ places. places.now) table.now) length [] }
{
    match table.get(length) {
        Some(places) => *places,
        None => &[],
    }
}

// The first row of this name, in either case, of those at these places.
#[tactic(auto, using(crate::proofs::ByLength::at_end))]
fn named_at(table: &[(&str, PropertyRow)], places: &[usize], name: &str) -> Option<PropertyRow>
    ensures { result ≡ named (rows_at (words_of table.now) places.now) (lowered name.now) }
{
    for place in places {
        if let Some((other, row)) = table.get(*place) {
            if same_name(other, name) {
                return Some(*row);
            }
        }
    }
    None
}

/// Puts the longhands that a declaration declares behind the others; none where its value isn't one.
pub(crate) fn declare(
    alloc: Global,
    meaning: Meaning,
    tokens: &[Token<'_>],
    manner: Manner,
    all: &mut Declarations,
) -> Result<(), Stop<'static>>
    ensures { Appends result all.old.items all.new.items (placed manner (definitions.declared_by meaning (lexemes_of tokens.now))) }
{
    match meaning {
        Meaning::Property(row) => match longhand(row, tokens) {
            Some(value) => put(row.property, value, manner, all),
            None => Ok(()),
        },
        Meaning::Shorthand(shorthand) => declare_shorthand(alloc, shorthand, tokens, manner, all),
        Meaning::Unknown => Ok(()),
    }
}

/// Puts a longhand with its value behind the others.
pub(crate) fn put(
    property: Property,
    value: Value,
    manner: Manner,
    all: &mut Declarations,
) -> Result<(), Stop<'static>>
    ensures { Appends result all.old.items all.new.items (placed manner ((property, value) ∷ [])) }
{
    all.push(Declaration {
        property,
        value,
        important: manner.important,
        place: manner.place,
    })?;
    Ok(())
}
