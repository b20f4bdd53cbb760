//! The page, shifted by the positions that are kept (docs/PROFILE/positions.md).

ghost use Rattle.std.specs.List.{All};
ghost use Rattle.std.specs.Prelude.{◌≡◌, ◌-◌, ◌≤◌, ◌^◌, length, IfOk, IfSome};
ghost use Rattle.place_map.specs.Near.{AreNearParts};
ghost use Rattle.place_map.specs.Placed.{placed_of};
ghost use Rattle.rel_shift.specs.Bounds.{AreSized, HasBounds};
ghost use Rattle.rel_shift.specs.Laws.{ArePlacesWithin};
ghost use Rattle.session.specs.Kept.{shifted_by};

use place_map::Placed;
use rel_shift::shift;
use std::alloc::{AllocError, Global};
use style_types::Positions;

/// A page with its fragments shifted by these positions; as it is where there are none.
pub(crate) fn shifted(
    alloc: Global,
    placed: Placed,
    kept: &Option<Positions>,
) -> Result<Placed, AllocError>
    requires near { AreNearParts (placed_of placed).parts }
    requires within { ArePlacesWithin (2 ^ 60 - 2 ^ 48) (placed_of placed).parts }
    requires sized { AreSized (placed_of placed) }
    requires bounded { IfSome kept.now (λ positions. All HasBounds positions.items) }
    requires few { IfSome kept.now (λ positions. length positions.items ≤ 65536) }
    ensures page { IfOk result (λ page. placed_of page ≡ shifted_by kept.now (placed_of placed)) }
    ensures near { IfOk result (λ page. AreNearParts (placed_of page).parts) }
{
    match kept {
        Some(positions) => {
            let page = shift(alloc, &placed, positions)?;
            Ok(page)
        }
        None => Ok(placed),
    }
}
