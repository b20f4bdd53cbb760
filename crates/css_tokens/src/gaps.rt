//! What may stand between tokens (CSS Syntax 3, 4.3.2).

ghost use Rattle.std.specs.Prelude.{◌≡◌, ◌<◌, ◌≤◌, codes, length, IfOk};
ghost use Rattle.std.proofs.Common.{rules};
ghost use Rattle.reading.specs.Readers as reading;
ghost use Rattle.reading.specs.Readers.{Answers};
ghost use Rattle.css_tokens.specs.Lexing as readers;
ghost use Rattle.css_tokens.specs.Gaps.{begins_with_a_star, is_some};

use reading::{Ending, starts, strip, up_to_end, white, white_ahead};

/// White space and comments, as many as come next, and the text behind them; whether there is white space among them.
/// A comment that nothing ends is refused at the end of the text.
pub fn gap(text: &str) -> Result<(bool, &str), &[u8]>
    ensures read { Answers (λ g. (g.0, g.1.now)) result (readers.gap text.now) }
    ensures shorter { IfOk result (λ g. length g.1.now ≤ length text.now) }
{
    let mut was_white = false;
    let mut rest = text;
    while in_gap(rest) {
        let (is_white, after) = gap_piece(was_white, rest)?;
        was_white = is_white;
        rest = after;
    }
    Ok((was_white, rest))
}

// White space or a comment comes next.
fn in_gap(text: &str) -> bool
    ensures { result ≡ readers.in_gap text.now }
{
    white_ahead(text) || starts("/*", text)
}

fn gap_piece(was_white: bool, text: &str) -> Result<(bool, &str), &[u8]>
    ensures read { Answers (λ g. (g.0, g.1.now)) result (readers.gap_piece was_white text.now) }
    ensures shorter { IfOk result (λ g. length g.1.now < length text.now) }
{
    if white_ahead(text) {
        Ok((true, white(text)?))
    } else {
        Ok((was_white, comment(text)?))
    }
}

/// The text behind a comment.
#[tactic(auto, unfolding(crate::specs::Lexing::comment, reading::specs::Readers::after, reading::specs::Readers::up_to))]
pub fn comment(text: &str) -> Result<&str, &[u8]>
    ensures read { Answers (λ rest. (tt, rest.now)) result (readers.comment text.now) }
    ensures shorter { IfOk result (λ rest. length rest.now < length text.now) }
{
    behind_end(strip("/*", text)?)
}

// What stands behind the first `*/`.
#[tactic(auto, using(crate::proofs::Gapping::comment_ends, crate::proofs::Gapping::comment_open))]
fn behind_end(text: &str) -> Result<&str, &[u8]>
    ensures read { Answers (λ rest. (tt, rest.now)) result (readers.comment_end text.now) }
    ensures shorter { IfOk result (λ rest. length rest.now ≤ length text.now) }
{
    Ok(up_to_end(&CommentEnd, text)?.1)
}

/// The `*/` that ends a comment.
struct CommentEnd;

impl Ending for CommentEnd {
    ghost reads = { λ _. reading.strip (codes "*/") };

    ghost mark = { λ _. 42 };

    fn first_byte(&self) -> u8 {
        b'*'
    }

    fn strip_from<'a>(&self, text: &'a str) -> Result<&'a str, &'a [u8]> {
        strip("*/", text)
    }

    ghost ascii = { λ _. Prim.search rules };

    ghost begins = { λ _. begins_with_a_star };

    ghost some = { λ _. is_some };
}
