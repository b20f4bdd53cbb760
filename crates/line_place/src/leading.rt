//! The extents of inline boxes over and under a line's baseline (CSS 2, 10.8.1; CSS Writing Modes 4, 4.2).

ghost use Rattle.std.specs.Prelude.{◌≡◌, ◌≤◌, ◌^◌, ℤ, pos, ◌+ℤ◌, ◌≤ℤ◌, unsigned_abs};
ghost use Rattle.line_place.specs.Leading as rule;
ghost use Rattle.line_place.specs.Reach.{AreNear, IsFontSize, IsShare, IsTextNear};
ghost use Rattle.style_types.specs.Style.{IsLineHeight};

use crate::line::Extents;
use style_types::{Baseline, LineHeight, Style};
use wm_units::{cap, half, scaled};

/// The extents of an inline box in this style, or of a strut, where the ascent and the descent of its face are these
/// thousandths of the font size, at most 4,000 each, and its baseline stands `raised` units over that of the line (CSS 2,
/// 10.8.1). Takes no memory.
pub fn extents(ascent: u32, descent: u32, style: &Style, baseline: Baseline, raised: i64) -> Extents
    requires ascent { ascent ≤ 4000 }
    requires descent { descent ≤ 4000 }
    requires font_size_low { pos 0 ≤ℤ style.now.font_size }
    requires font_size_high { style.now.font_size ≤ℤ pos 65536 }
    requires line_height { IsLineHeight style.now.line_height }
    requires raised { unsigned_abs raised ≤ 2 ^ 32 }
    ensures are { result ≡ rule.extents ascent descent style.now baseline raised }
    ensures near { AreNear result }
{
    let text = by_baseline(
        share(ascent, style.font_size),
        share(descent, style.font_size),
        baseline,
    );
    let line_height = line_height(style, text);
    spread(text, line_height, raised)
}

// How far text reaches over and under its own baseline.
#[derive(Clone, Copy, PartialEq, Eq)]
struct TextExtents {
    over: i64,
    under: i64,
}

// These thousandths of the font size, cut downwards.
fn share(thousandths: u32, font_size: i64) -> i64
    requires thousandths { thousandths ≤ 4000 }
    requires font_size { IsFontSize font_size }
    ensures is { result ≡ rule.share thousandths font_size }
    ensures near { IsShare result }
{
    (i64::from(thousandths) * font_size).div_euclid(1000)
}

// With a central baseline both halves of the text, the smaller one over (CSS Writing Modes 4, 4.2).
fn by_baseline(ascent: i64, descent: i64, baseline: Baseline) -> TextExtents
    requires ascent { IsShare ascent }
    requires descent { IsShare descent }
    ensures is { result ≡ rule.by_baseline ascent descent baseline }
    ensures over_low { pos 0 ≤ℤ result.over }
    ensures over_high { result.over ≤ℤ pos (2 ^ 18) }
    ensures under_low { pos 0 ≤ℤ result.under }
    ensures under_high { result.under ≤ℤ pos (2 ^ 19) }
{
    match baseline {
        Baseline::Alphabetic => TextExtents {
            over: ascent,
            under: descent,
        },
        Baseline::Central => {
            let over = half(ascent + descent);
            TextExtents {
                over,
                under: ascent + descent - over,
            }
        }
    }
}

// The used `line-height` (CSS 2, 10.8.1).
fn line_height(style: &Style, text: TextExtents) -> i64
    requires font_size { IsFontSize style.now.font_size }
    requires line_height { IsLineHeight style.now.line_height }
    requires text { IsTextNear text }
    ensures is { result ≡ rule.line_height style.now (text.over +ℤ text.under) }
    ensures near { unsigned_abs result ≤ 2 ^ 32 }
{
    match style.line_height {
        LineHeight::Normal => text.over + text.under,
        LineHeight::Number(hundredths) => cap(scaled(hundredths, style.font_size)),
        LineHeight::Length(length) => length,
    }
}

// Half of the leading stands over the text and the rest under it; both move over with the box (CSS 2, 10.8.1).
fn spread(text: TextExtents, line_height: i64, raised: i64) -> Extents
    requires text { IsTextNear text }
    requires line_height { unsigned_abs line_height ≤ 2 ^ 32 }
    requires raised { unsigned_abs raised ≤ 2 ^ 32 }
    ensures are { result ≡ rule.spread text.over text.under line_height raised }
    ensures near { AreNear result }
{
    let over = with_leading(text, line_height);
    let under = line_height - over;
    Extents {
        ascent: text.over,
        descent: text.under,
        over: over + raised,
        under: under - raised,
        raised,
    }
}

// How far the line height reaches over the baseline of its box.
#[tactic(auto, using(crate::proofs::Lengths::half_near))]
fn with_leading(text: TextExtents, line_height: i64) -> i64
    requires text { IsTextNear text }
    requires line_height { unsigned_abs line_height ≤ 2 ^ 32 }
    ensures is { result ≡ rule.over_baseline text.over text.under line_height }
    ensures near { unsigned_abs result ≤ 2 ^ 33 }
{
    text.over + half(line_height - (text.over + text.under))
}
