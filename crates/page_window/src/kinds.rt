//! Copies of kinds of fragments.

ghost use Rattle.std.specs.Prelude.{◌≡◌, IfOk};
ghost use Rattle.fragment_types.specs.Fragment.{kind_of};

use fragment_types::FragmentKind;
use std::alloc::AllocError;

/// A copy of the kind of a fragment, which shares what a box has and the units of a run.
pub(crate) fn kind_copy(kind: &FragmentKind) -> Result<FragmentKind, AllocError>
    ensures { IfOk result (λ own. kind_of own ≡ kind_of kind.now) }
{
    let own = match kind {
        FragmentKind::Box(part) => FragmentKind::Box(part.clone()?),
        FragmentKind::Line {
            index,
            base,
            mode,
            baseline,
        } => FragmentKind::Line {
            index: *index,
            base: *base,
            mode: *mode,
            baseline: *baseline,
        },
        FragmentKind::Span => FragmentKind::Span,
        FragmentKind::Run {
            form,
            level,
            natural,
            units,
        } => FragmentKind::Run {
            form: *form,
            level: *level,
            natural: *natural,
            units: units.clone()?,
        },
        FragmentKind::Measure { min, max } => FragmentKind::Measure {
            min: *min,
            max: *max,
        },
    };
    Ok(own)
}
