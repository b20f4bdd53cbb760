//! Sizes between their limits, and sizes that fit their contents (CSS 2, 10.3.5, 10.4 and 10.7).

ghost use Rattle.std.specs.Prelude.{◌≡◌, ◌^◌, pos, ◌≤ℤ◌};
ghost use Rattle.size_rules.specs.Limits as limits;

use wm_units::cap_size;

/// A size within its minimum and its maximum, of which the minimum wins (CSS 2, 10.4 and 10.7).
pub fn held(size: i64, min: i64, max: Option<i64>) -> i64
    ensures { result ≡ limits.held size min max }
{
    match max {
        Some(max) => size.min(max).max(min),
        None => size.max(min),
    }
}

/// The size of a box that is as large as its contents need and its place allows: what is available, but at
/// least the min-content and at most the max-content size (CSS 2, 10.3.5).
pub fn fit(min: i64, max: i64, available: i64) -> i64
    ensures { result ≡ limits.fit min max available }
{
    min.max(available).min(max)
}

/// A used size: within its minimum and its maximum, and then within 0 and 2^32 units (CSS 2, 10.4 and 10.7).
pub fn used_size(size: i64, min: i64, max: Option<i64>) -> i64
    ensures value { result ≡ limits.used_size size min max }
    ensures low { pos 0 ≤ℤ result }
    ensures high { result ≤ℤ pos (2 ^ 32) }
{
    cap_size(held(size, min, max))
}
