//! How numbers of a style sheet become lengths, and how far lengths reach (CSS 2, 4.3.2 and 4.3.3).

ghost use Rattle.std.specs.Prelude.{◌≡◌, ◌≤◌, ◌^◌, unsigned_abs, pos, ◌≤ℤ◌};
ghost use Rattle.wm_units.specs.Numbers as numbers;

const GREATEST_LENGTH: i64 = 1 << 32;

/// Hundredths of a pixel in units of 1/64 px: the nearest, ties away from 0 (CSS 2, 4.3.2).
pub fn fixed(hundredths: i64) -> i64
    requires { unsigned_abs hundredths ≤ 999999999 }
    ensures { result ≡ numbers.fixed hundredths }
{
    nearest_hundredth(hundredths * 64)
}

/// Hundredths of a base, as `em` is of a font size: the nearest, ties away from 0 (CSS 2, 4.3.2).
/// The base is from 0 to 65,536 units.
pub fn scaled(hundredths: i64, base: i64) -> i64
    requires hundredths { unsigned_abs hundredths ≤ 999999999 }
    requires not_negative { pos 0 ≤ℤ base }
    requires limit { base ≤ℤ pos 65536 }
    ensures { result ≡ numbers.scaled hundredths base }
{
    nearest_hundredth(hundredths * base)
}

/// A percentage, in hundredths of a percent, of a base from 0 to 2^32 units, cut towards 0 (CSS 2, 4.3.3).
pub fn percent(hundredths: i64, base: i64) -> i64
    requires hundredths { unsigned_abs hundredths ≤ 999999999 }
    requires not_negative { pos 0 ≤ℤ base }
    requires limit { base ≤ℤ pos (2 ^ 32) }
    ensures { result ≡ numbers.percent hundredths base }
{
    hundredths * base / 10_000
}

/// A resolved length, held within -2^32 and 2^32 units.
pub fn cap(length: i64) -> i64
    ensures { result ≡ numbers.cap length }
{
    length.clamp(-GREATEST_LENGTH, GREATEST_LENGTH)
}

/// A used size, held within 0 and 2^32 units.
pub fn cap_size(size: i64) -> i64
    ensures { result ≡ numbers.cap_size size }
{
    size.clamp(0, GREATEST_LENGTH)
}

/// Half of a length, cut downwards.
pub fn half(length: i64) -> i64
    ensures { result ≡ numbers.half length }
{
    length.div_euclid(2)
}

// The whole number nearest to n hundredths, ties away from 0.
fn nearest_hundredth(n: i64) -> i64
    requires { unsigned_abs n ≤ 2 ^ 62 }
    ensures { result ≡ numbers.nearest_hundredth n }
{
    if n < 0 {
        -((50 - n) / 100)
    } else {
        (n + 50) / 100
    }
}
