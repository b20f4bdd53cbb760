//! Where to go on behind what is refused (CSS Syntax 3, 2.2 and 5.4). Here, other than there, any closing bracket closes
//! any bracket, and outside of rules a `}` that closes nothing ends a rule.

ghost use Rattle.std.specs.Prelude.{◌≡◌, ◌<◌, ◌≤◌, length, option_map, true, Err, IfOk, IfSome};
ghost use Rattle.reading.specs.Cuts.{EndsWith};
ghost use Rattle.reading.specs.Readers.{Answers, next_is};
ghost use Rattle.css_tokens.specs.Characters.{is_quote};
ghost use Rattle.css_tokens.specs.Cuts.{BeginsInAscii};
ghost use Rattle.css_tokens.specs.Lexing.{token};
ghost use Rattle.css_tokens.specs.Tokens.{lexeme_of};
ghost use Rattle.report_styles.specs.GoingOn as readers;
ghost use Rattle.report_styles.specs.GoingOn.{IsBehind};

use css_tokens::{Token, comment, next_token};
use reading::{first, starts};

/// A piece of a text, as far as it plays a part in where a declaration or a rule ends.
#[derive(Clone, Copy, PartialEq, Eq)]
enum Piece {
    /// A bracket begins.
    Opening,
    /// A bracket ends.
    Closing,
    BlockBegin,
    BlockEnd,
    Semicolon,
    Other,
}

/// What is passed over.
#[derive(Clone, Copy)]
enum Passed {
    Declaration { in_rule: bool },
    AtRule { in_rule: bool },
    /// A rule with selectors.
    StyleRule,
}

/// Where it ends: before a piece, or behind it.
#[derive(Clone, Copy)]
enum End {
    Before,
    Behind,
}

/// The text behind the declaration or the at-rule that begins here, or from the `}` of the rule on in which it stands;
/// none where it goes to the end.
#[tactic(auto, unfolding(crate::specs::GoingOn::behind_declaration))]
pub(crate) fn behind_declaration(text: &str, in_rule: bool) -> Option<&str>
    ensures read { option_map (λ rest. rest.now) result ≡ readers.behind_declaration in_rule text.now }
    ensures shorter { IfSome result (λ rest. length rest.now < length text.now) }
{
    match next_piece(text) {
        Ok((piece, rest)) => behind(among_declarations(in_rule, text), deeper(0, piece), rest),
        Err(_) => None,
    }
}

fn among_declarations(in_rule: bool, text: &str) -> Passed
    ensures { result ≡ readers.among_declarations in_rule text.now }
{
    if starts("@", text) {
        Passed::AtRule { in_rule }
    } else {
        Passed::Declaration { in_rule }
    }
}

/// The text behind the rule that begins here: behind the `}` of its block, or, where it is an at-rule, behind a `;`
/// before one; none where it goes to the end.
#[tactic(auto, unfolding(crate::specs::GoingOn::behind_rule))]
pub(crate) fn behind_rule(text: &str) -> Option<&str>
    ensures read { option_map (λ rest. rest.now) result ≡ readers.behind_rule text.now }
    ensures shorter { IfSome result (λ rest. length rest.now < length text.now) }
{
    behind(among_rules(text), 0, text)
}

fn among_rules(text: &str) -> Passed
    ensures { result ≡ readers.among_rules text.now }
{
    if starts("@", text) {
        Passed::AtRule { in_rule: false }
    } else {
        Passed::StyleRule
    }
}

// The text behind it, where `depth` brackets and blocks of it are open.
fn behind(passed: Passed, depth: usize, text: &str) -> Option<&str>
    ensures read { option_map (λ rest. rest.now) result ≡ readers.behind passed depth text.now }
    ensures shorter { IfSome result (λ rest. IsBehind passed rest.now text.now) }
{
    let mut depth = depth;
    let mut rest = text;
    while let Ok((piece, after)) = next_piece(rest) {
        match ends_at(passed, depth, piece) {
            Some(End::Before) => return Some(rest),
            Some(End::Behind) => return Some(after),
            None => {}
        }
        depth = deeper(depth, piece);
        rest = after;
    }
    None
}

/// Whether it ends at this piece, before which `depth` brackets and blocks are open.
fn ends_at(passed: Passed, depth: usize, piece: Piece) -> Option<End>
    ensures { result ≡ readers.ends_at passed depth piece }
{
    match (passed, piece) {
        (Passed::Declaration { .. } | Passed::AtRule { .. }, Piece::Semicolon) => {
            only_if(depth == 0, End::Behind)
        }
        (Passed::Declaration { in_rule }, Piece::BlockEnd) => only_if(
            in_rule && depth == 0,
            End::Before,
        ),
        (Passed::AtRule { in_rule }, Piece::BlockEnd) => block_end(in_rule, depth),
        (Passed::StyleRule, Piece::BlockEnd) => block_end(false, depth),
        _ => None,
    }
}

/// Whether a rule ends at this `}`: behind that of its block, or before that of the rule in which it stands.
fn block_end(in_rule: bool, depth: usize) -> Option<End>
    ensures { result ≡ readers.block_end in_rule depth }
{
    if in_rule && depth == 0 {
        Some(End::Before)
    } else {
        only_if(depth <= 1, End::Behind)
    }
}

fn only_if(holds: bool, end: End) -> Option<End>
    ensures { result ≡ readers.only_if holds end }
{
    if holds { Some(end) } else { None }
}

/// How many brackets and blocks are open behind this piece.
fn deeper(depth: usize, piece: Piece) -> usize
    ensures { result ≡ readers.deeper depth piece }
{
    match piece {
        Piece::Opening | Piece::BlockBegin => depth.saturating_add(1),
        Piece::Closing | Piece::BlockEnd => depth.saturating_sub(1),
        Piece::Semicolon | Piece::Other => depth,
    }
}

/// The next piece and the text behind it. There is none at the end of the text, nor where a comment isn't ended.
#[tactic(auto, unfolding(crate::specs::GoingOn::piece))]
fn next_piece(text: &str) -> Result<(Piece, &str), &[u8]>
    ensures read { Answers (λ p. (p.0, p.1.now)) result (readers.piece text.now) }
    ensures shorter { IfOk result (λ p. length p.1.now < length text.now) }
{
    if starts("/*", text) {
        return Ok((Piece::Other, comment(text)?));
    }
    match next_token(text) {
        Ok((token, rest)) => Ok((piece_of(token), rest)),
        Err(left) => no_token(text, left),
    }
}

/// A string that isn't closed, which is one piece, or else a byte. `left` is where the reading of a token stopped.
fn no_token<'a>(text: &'a str, left: &'a [u8]) -> Result<(Piece, &'a str), &'a [u8]>
    requires { token text.now ≡ Err left.now }
    ensures read { Answers (λ p. (p.0, p.1.now)) result (readers.no_token text.now left.now) }
    ensures shorter { IfOk result (λ p. length p.1.now < length text.now) }
{
    if quote_ahead(text) {
        Ok((Piece::Other, behind_open_string(text, left)))
    } else {
        lone_sign(text)
    }
}

fn quote_ahead(text: &str) -> bool
    ensures { result ≡ next_is is_quote text.now }
{
    match first(text) {
        Some((byte, _)) => byte == b'"' || byte == b'\'',
        None => false,
    }
}

#[tactic(auto, using(crate::proofs::OpenStrings::open_string_ends, crate::proofs::OpenStrings::open_string_in_ascii, crate::proofs::OpenStrings::open_string_shorter))]
fn behind_open_string<'a>(text: &'a str, left: &[u8]) -> &'a str
    requires quote { next_is is_quote text.now ≡ true }
    requires stopped { token text.now ≡ Err left.now }
    ensures left { result.now ≡ left.now }
    ensures shorter { length result.now < length text.now }
{
    end_of(text, left)
}

// The bytes with which the text ends, as a text.
fn end_of<'a>(text: &'a str, bytes: &[u8]) -> &'a str
    requires ends { EndsWith text.now bytes.now }
    requires ascii { BeginsInAscii bytes.now }
    ensures { result.now ≡ bytes.now }
{
    text.split_at(text.len() - bytes.len()).1
}

fn piece_of(token: Token<'_>) -> Piece
    ensures { result ≡ readers.piece_of (lexeme_of token.entry) }
{
    match token {
        Token::Function(_) | Token::Round | Token::Square => Piece::Opening,
        Token::Sign(b';') => Piece::Semicolon,
        _ => Piece::Other,
    }
}

// A byte that is no token.
#[tactic(auto, unfolding(reading::specs::Readers::one_of))]
fn lone_sign(text: &str) -> Result<(Piece, &str), &[u8]>
    ensures read { Answers (λ p. (p.0, p.1.now)) result (readers.lone_sign text.now) }
    ensures shorter { IfOk result (λ p. length p.1.now < length text.now) }
{
    match first(text) {
        Some((byte, rest)) => Ok((sign(byte), rest)),
        None => Err(text.as_bytes()),
    }
}

fn sign(byte: u8) -> Piece
    ensures { result ≡ readers.sign byte }
{
    match byte {
        b')' | b']' => Piece::Closing,
        b'{' => Piece::BlockBegin,
        b'}' => Piece::BlockEnd,
        _ => Piece::Other,
    }
}
