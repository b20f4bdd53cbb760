//! The intrinsic sizes of a paragraph (CSS 2, 10.3.5).

ghost use Rattle.std.specs.Prelude.{◌≡◌, ◌≤◌, ◌^◌};
ghost use Rattle.line_fill.specs.Item.{spread};
ghost use Rattle.line_fill.specs.Sizes as sizes;

use crate::widest::Widest;
use crate::{FillItem, Intrinsic};
use fragment_types::Breaking;
use wm_units::cap_size;

/// The min-content and the max-content size of a paragraph (CSS 2, 10.3.5): the width of its widest piece between any
/// breaks, and between forced ones. Both are held within 0 and 2^32 units; a paragraph without items has 0. Takes no
/// memory. All lengths, without their signs, come to at most 2^60.
pub fn intrinsic(items: &[FillItem]) -> Intrinsic
    requires { spread items.now ≤ 2 ^ 60 }
    ensures { result ≡ sizes.intrinsic items.now }
{
    let mut least = Widest::begin();
    let mut greatest = Widest::begin();
    for item in items {
        least = least.after(*item, is_allowed(item.end));
        greatest = greatest.after(*item, is_forced(item.end));
    }
    Intrinsic {
        min: cap_size(least.width()),
        max: cap_size(greatest.width()),
    }
}

/// Whether a line ends there whatever fits.
pub(crate) fn is_forced(end: Breaking) -> bool
    ensures { result ≡ sizes.is_forced end }
{
    end == Breaking::Must
}

/// Whether a line may end there.
pub(crate) fn is_allowed(end: Breaking) -> bool
    ensures { result ≡ sizes.is_allowed end }
{
    end != Breaking::No
}
