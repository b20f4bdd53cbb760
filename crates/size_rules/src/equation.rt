//! The inline equation (CSS 2, 10.3.3).

ghost use Rattle.std.specs.Prelude.{◌≡◌, ◌+◌, ◌≤◌, ◌^◌, unsigned_abs, pos, ◌-ℤ◌, ◌≤ℤ◌};
ghost use Rattle.size_rules.specs.Equation as equation;
ghost use Rattle.size_rules.specs.Equation.{length_of};

use crate::limits::used_size;
use wm_units::half;

/// What a block-level box takes on its containing block's inline axis beside its borders and paddings, in units
/// of 1/64 px: the inline-start margin, the inline size of its content area, the inline-end margin.
#[derive(Clone, Copy, Debug, PartialEq, Eq)]
pub struct Used {
    pub start: i64,
    pub size: i64,
    pub end: i64,
}

/// Solves the inline equation: what the margins and the size come to beside the borders and paddings `edges`.
/// `None` is auto, and for `max` that there is no maximum. What is available, `edges` and the margins sum, without
/// their signs, to at most 2^60.
pub fn inline_equation(
    available: i64,
    edges: i64,
    size: Option<i64>,
    min: i64,
    max: Option<i64>,
    start: Option<i64>,
    end: Option<i64>,
) -> Used
    requires { unsigned_abs available + unsigned_abs edges + length_of start + length_of end ≤ 2 ^ 60 }
    ensures value { result ≡ equation.equation available edges size min max start end }
    ensures size_low { pos 0 ≤ℤ result.size }
    ensures size_high { result.size ≤ℤ pos (2 ^ 32) }
    ensures start_near { unsigned_abs result.start ≤ unsigned_abs available + unsigned_abs edges + length_of start + length_of end }
    ensures end_near { unsigned_abs result.end ≤ unsigned_abs available + unsigned_abs edges + length_of start + length_of end + 2 ^ 32 }
{
    let size = used_size(asked(available - edges, size, start, end), min, max);
    settled(available - edges - size, size, start, end)
}

// An auto size is what remains, with auto margins as 0.
fn asked(room: i64, size: Option<i64>, start: Option<i64>, end: Option<i64>) -> i64
    requires { unsigned_abs room + length_of start + length_of end ≤ 2 ^ 61 }
    ensures { result ≡ equation.asked room size start end }
{
    match size {
        Some(size) => size,
        None => rest(room, start, end),
    }
}

// The margins of a box whose size is settled: the inline-end one is what the inline-start one leaves.
fn settled(room: i64, size: i64, start: Option<i64>, end: Option<i64>) -> Used
    requires { unsigned_abs room + length_of start + length_of end ≤ 2 ^ 61 }
    ensures { result ≡ equation.settled room size start end }
{
    let start = start_margin(rest(room, start, end), room, start, end);
    Used {
        start,
        size,
        end: room - start,
    }
}

#[tactic(auto, unfolding(crate::specs::Equation::start_margin, crate::specs::Equation::or_zero, crate::specs::Equation::length_of))]
fn start_margin(left: i64, room: i64, start: Option<i64>, end: Option<i64>) -> i64
    requires { unsigned_abs room + length_of start + length_of end ≤ 2 ^ 61 }
    ensures value { result ≡ equation.start_margin left room start end }
    ensures near { unsigned_abs result ≤ unsigned_abs room + length_of start + length_of end }
{
    if left < 0 {
        return or_zero(start);
    }
    match (start, end) {
        (None, None) => half(room),
        (None, Some(end)) => room - end,
        (Some(start), _) => start,
    }
}

// What a room has beside the margins in it that aren't auto.
#[tactic(auto, unfolding(crate::specs::Equation::rest))]
fn rest(room: i64, start: Option<i64>, end: Option<i64>) -> i64
    requires { unsigned_abs room + length_of start + length_of end ≤ 2 ^ 61 }
    ensures value { result ≡ equation.rest room start end }
    ensures near { unsigned_abs result ≤ unsigned_abs room + length_of start + length_of end }
{
    room - or_zero(start) - or_zero(end)
}

// An auto margin counts as 0.
#[tactic(auto, unfolding(crate::specs::Equation::or_zero, crate::specs::Equation::length_of))]
fn or_zero(margin: Option<i64>) -> i64
    ensures value { result ≡ equation.or_zero margin }
    ensures near { unsigned_abs result ≤ length_of margin }
{
    margin.unwrap_or(0)
}
