//! The values of longhands (docs/PROFILE/properties.md).

ghost use Rattle.std.specs.Prelude.{◌≡◌};
ghost use Rattle.css_tokens.specs.Tokens.{lexeme_of};
ghost use Rattle.css_values.specs.Longhand as definitions;
ghost use Rattle.css_values.specs.Views.{lexemes_of};

use crate::family::family;
use crate::words::{is_one_of, is_word_alone};
use css_tokens::Token;
use css_types::{Keywords, More, PropertyRow, Range, Value, Values, WIDTH_NAMES, WORDS};
use reading::{named, same_name};

/// The value of a longhand, if the tokens are one.
#[tactic(auto, unfolding(crate::specs::Longhand::longhand))]
pub(crate) fn longhand(row: PropertyRow, tokens: &[Token<'_>]) -> Option<Value>
    ensures { result ≡ definitions.longhand row (lexemes_of tokens.now) }
{
    if is_word_alone("initial", tokens) {
        Some(Value::Initial)
    } else if row.inherited && is_word_alone("inherit", tokens) {
        Some(Value::Inherit)
    } else {
        value_of(row.values, tokens)
    }
}

fn value_of(values: Values, tokens: &[Token<'_>]) -> Option<Value>
    ensures { result ≡ definitions.value_by values.more values (lexemes_of tokens.now) }
{
    match values.more {
        More::Faces => family(tokens),
        More::Digits => or_digits(one_token(values, tokens), tokens),
        More::Nothing | More::Numbers | More::Widths => one_token(values, tokens),
    }
}

fn one_token(values: Values, tokens: &[Token<'_>]) -> Option<Value>
    ensures { result ≡ definitions.one_token values (lexemes_of tokens.now) }
{
    match tokens {
        [token] => single(values, *token),
        _ => None,
    }
}

fn or_digits(value: Option<Value>, tokens: &[Token<'_>]) -> Option<Value>
    ensures { result ≡ definitions.or_else value (definitions.digits (lexemes_of tokens.now)) }
{
    match value {
        Some(value) => Some(value),
        None => digits(tokens),
    }
}

// `digits`, alone for two or with a number behind it.
fn digits(tokens: &[Token<'_>]) -> Option<Value>
    ensures { result ≡ definitions.digits (lexemes_of tokens.now) }
{
    match tokens {
        [Token::Name(name)] if same_name("digits", name) => Some(Value::Digits(2)),
        [Token::Name(name), Token::Number(count)] if same_name("digits", name) => most_digits(
            *count,
        ),
        _ => None,
    }
}

// The greatest count of digits that are combined: 2, 3 or 4.
fn most_digits(hundredths: i64) -> Option<Value>
    ensures { result ≡ definitions.most_digits hundredths }
{
    match hundredths {
        200 => Some(Value::Digits(2)),
        300 => Some(Value::Digits(3)),
        400 => Some(Value::Digits(4)),
        _ => None,
    }
}

/// The value that is this one token.
#[tactic(auto, unfolding(crate::specs::Longhand::single))]
pub(crate) fn single(values: Values, token: Token<'_>) -> Option<Value>
    ensures { result ≡ definitions.single values (lexeme_of token.entry) }
{
    match token {
        Token::Name(name) => match keyword(values.keywords, name) {
            Some(value) => Some(value),
            None => width(values.more, name),
        },
        Token::Number(number) => number_value(values.more, values.lengths, number),
        Token::Dimension(number, unit) if is_in(values.lengths, number) => length(number, unit),
        Token::Percentage(number) if is_in(values.percentages, number) => Some(Value::Percent(
            number,
        )),
        _ => None,
    }
}

// The keyword of this name, if it is one of these.
#[tactic(auto, unfolding(crate::specs::Tables::keywords))]
fn keyword(keywords: Keywords, name: &str) -> Option<Value>
    ensures { result ≡ definitions.keyword_of keywords name.now }
{
    if is_one_of(keywords.words(), name) {
        named(&WORDS, name).map(Value::Keyword)
    } else {
        None
    }
}

// The border width of this name, where widths have names.
#[tactic(auto, unfolding(crate::specs::Tables::widths))]
fn width(more: More, name: &str) -> Option<Value>
    ensures { result ≡ definitions.width_named more name.now }
{
    match more {
        More::Widths => named(&WIDTH_NAMES, name).map(Value::Px),
        _ => None,
    }
}

// A number: 0 is a length too.
fn number_value(more: More, lengths: Range, number: i64) -> Option<Value>
    ensures { result ≡ definitions.number_value more lengths number }
{
    match more {
        More::Numbers if number >= 0 => Some(Value::Number(number)),
        More::Numbers => None,
        _ if number == 0 && is_in(lengths, number) => Some(Value::Px(0)),
        _ => None,
    }
}

fn is_in(range: Range, number: i64) -> bool
    ensures { result ≡ definitions.in_range range number }
{
    match range {
        Range::Nowhere => false,
        Range::NotNegative => number >= 0,
        Range::Anywhere => true,
    }
}

fn length(number: i64, unit: &str) -> Option<Value>
    ensures { result ≡ definitions.length_in unit.now number }
{
    if same_name("px", unit) {
        Some(Value::Px(number))
    } else if same_name("em", unit) {
        Some(Value::Em(number))
    } else {
        None
    }
}
