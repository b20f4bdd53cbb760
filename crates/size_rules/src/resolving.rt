//! Sizes, margins and paddings whose percentages refer to a size that may be unknown (CSS 2, 8.3, 8.4, 10.2, 10.4 and
//! 10.5).

ghost use Rattle.std.specs.Prelude.{◌≡◌, ◌≤◌, ◌^◌, unsigned_abs, ℤ, pos, ◌≤ℤ◌, Some, IfSome};
ghost use Rattle.style_types.specs.Style.{IsExtent, IsLength, IsMargin, IsSize};
ghost use Rattle.style_types.specs.declared.style.Size.TheVariants.{Percent};
ghost use Rattle.size_rules.specs.Resolving as resolving;

use style_types::Size;
use wm_units::{cap, percent};

/// A size, or a maximum: None is auto, or that there is no maximum. A percentage of an unknown size counts as auto.
/// The base is the containing block's size on the same axis.
pub fn resolved(size: Size, base: Option<i64>) -> Option<i64>
    requires hundredths { (p : ℤ) → size ≡ Percent p → unsigned_abs p ≤ 999999999 }
    requires not_negative { (b : ℤ) → base ≡ Some b → pos 0 ≤ℤ b }
    requires limit { (b : ℤ) → base ≡ Some b → b ≤ℤ pos (2 ^ 32) }
    ensures value { result ≡ resolving.resolved size base }
    ensures extent { IsSize size → IfSome result IsExtent }
    ensures length { IsMargin size → IfSome result IsLength }
{
    match size {
        Size::Auto => None,
        Size::Length(length) => Some(length),
        Size::Percent(hundredths) => Some(share(hundredths, base?)),
    }
}

/// A minimum, or a padding: auto, and a percentage of an unknown size, count as 0. The base of a minimum is the
/// containing block's size on the same axis, that of a padding its inline size.
pub fn resolved_or_zero(size: Size, base: Option<i64>) -> i64
    requires hundredths { (p : ℤ) → size ≡ Percent p → unsigned_abs p ≤ 999999999 }
    requires not_negative { (b : ℤ) → base ≡ Some b → pos 0 ≤ℤ b }
    requires limit { (b : ℤ) → base ≡ Some b → b ≤ℤ pos (2 ^ 32) }
    ensures value { result ≡ resolving.resolved_or_zero size base }
    ensures extent { IsSize size → IsExtent result }
    ensures length { IsMargin size → IsLength result }
{
    resolved(size, base).unwrap_or(0)
}

/// A margin: None exactly where it is auto. A percentage of an unknown size counts as 0. The base is the containing
/// block's inline size.
pub fn resolved_margin(margin: Size, base: Option<i64>) -> Option<i64>
    requires hundredths { (p : ℤ) → margin ≡ Percent p → unsigned_abs p ≤ 999999999 }
    requires not_negative { (b : ℤ) → base ≡ Some b → pos 0 ≤ℤ b }
    requires limit { (b : ℤ) → base ≡ Some b → b ≤ℤ pos (2 ^ 32) }
    ensures value { result ≡ resolving.resolved_margin margin base }
    ensures length { IsMargin margin → IfSome result IsLength }
{
    match margin {
        Size::Auto => None,
        Size::Length(_) | Size::Percent(_) => Some(resolved_or_zero(margin, base)),
    }
}

// A percentage of a size, held as a length is.
fn share(hundredths: i64, base: i64) -> i64
    requires hundredths { unsigned_abs hundredths ≤ 999999999 }
    requires not_negative { pos 0 ≤ℤ base }
    requires limit { base ≤ℤ pos (2 ^ 32) }
    ensures value { result ≡ resolving.share hundredths base }
    ensures length { unsigned_abs result ≤ 2 ^ 32 }
    ensures sign { pos 0 ≤ℤ hundredths → pos 0 ≤ℤ result }
{
    cap(percent(hundredths, base))
}
