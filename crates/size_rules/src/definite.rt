//! Block sizes that are known before the contents are laid out (CSS 2, 10.5).

ghost use Rattle.std.specs.Prelude.{◌≡◌, ◌≤◌, ◌^◌, unsigned_abs, ℤ, pos, ◌≤ℤ◌, Some};
ghost use Rattle.style_types.specs.declared.style.Size.TheVariants.{Percent};
ghost use Rattle.size_rules.specs.Definite as definite;

use crate::resolving::resolved;
use style_types::Size;

/// A block size that is known before the contents are laid out, or None exactly where it is auto or a
/// percentage of a size that isn't known (CSS 2, 10.5).
pub fn definite_block(size: Size, containing: Option<i64>) -> Option<i64>
    requires hundredths { (p : ℤ) → size ≡ Percent p → unsigned_abs p ≤ 999999999 }
    requires not_negative { (base : ℤ) → containing ≡ Some base → pos 0 ≤ℤ base }
    requires limit { (base : ℤ) → containing ≡ Some base → base ≤ℤ pos (2 ^ 32) }
    ensures { result ≡ definite.definite_block size containing }
{
    resolved(size, containing)
}
