//! Border shorthands: a width, a style and a colour, each at most once, in any order (CSS 2, 8.5.4).

ghost use Rattle.std.specs.Prelude.{◌≡◌};
ghost use Rattle.css_tokens.specs.Tokens.{lexeme_of};
ghost use Rattle.css_values.specs.Border as definitions;
ghost use Rattle.css_values.specs.Views.{lexemes_of};

use crate::longhand::single;
use crate::names::COLOURS;
use crate::words::is_one_of;
use css_tokens::Token;
use css_types::{LINES, Value, WIDTHS};

/// What is given.
#[derive(Clone, Copy)]
pub(crate) struct Found {
    pub width: Option<Value>,
    pub style: Option<Value>,
    pub colour: bool,
}

/// Nothing is given.
pub(crate) const NOTHING: Found = Found {
    width: None,
    style: None,
    colour: false,
};

/// What the tokens give, if they are such a value.
#[tactic(auto, using(crate::proofs::Pieces::pieces_go_on, crate::proofs::Pieces::pieces_stop, crate::proofs::Pieces::pieces_end))]
pub(crate) fn given(tokens: &[Token<'_>]) -> Option<Found>
    ensures { result ≡ definitions.pieces (lexemes_of tokens.now) definitions.nothing }
{
    let mut found = NOTHING;
    for token in tokens {
        let Some(more) = with_piece(*token, found) else {
            return None;
        };
        found = more;
    }
    Some(found)
}

#[tactic(auto, unfolding(crate::specs::Tables::colours))]
fn with_piece(token: Token<'_>, found: Found) -> Option<Found>
    ensures { result ≡ definitions.with_piece (lexeme_of token.entry) found }
{
    match token {
        Token::Name(_) => by_name(single(LINES, token), single(WIDTHS, token), found),
        Token::Number(_) | Token::Dimension(_, _) => with_width(single(WIDTHS, token)?, found),
        Token::Hash(_) => with_colour(found),
        Token::Function(name) if is_one_of(&COLOURS, name) => with_colour(found),
        _ => None,
    }
}

// A name is a style, else a width, else a colour.
fn by_name(style: Option<Value>, width: Option<Value>, found: Found) -> Option<Found>
    ensures { result ≡ definitions.by_name style width found }
{
    match (style, width) {
        (Some(style), _) => with_style(style, found),
        (None, Some(width)) => with_width(width, found),
        (None, None) => with_colour(found),
    }
}

fn with_width(width: Value, found: Found) -> Option<Found>
    ensures { result ≡ definitions.with_width width found }
{
    match found.width {
        Some(_) => None,
        None => Some(Found {
            width: Some(width),
            ..found
        }),
    }
}

fn with_style(style: Value, found: Found) -> Option<Found>
    ensures { result ≡ definitions.with_style style found }
{
    match found.style {
        Some(_) => None,
        None => Some(Found {
            style: Some(style),
            ..found
        }),
    }
}

fn with_colour(found: Found) -> Option<Found>
    ensures { result ≡ definitions.with_colour found }
{
    if found.colour {
        None
    } else {
        Some(Found {
            colour: true,
            ..found
        })
    }
}

/// What isn't given is initial.
pub(crate) fn or_initial(value: Option<Value>) -> Value
    ensures { result ≡ definitions.or_initial value }
{
    match value {
        Some(value) => value,
        None => Value::Initial,
    }
}
