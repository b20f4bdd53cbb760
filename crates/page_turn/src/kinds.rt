//! Kinds of fragments of the flow in another mode (CSS Writing Modes 4, 5.1 and 6.2).

ghost use Rattle.std.specs.Prelude.{◌≡◌, IfOk};
ghost use Rattle.fragment_types.specs.Fragment.{kind_of};
ghost use Rattle.page_turn.specs.Kinds as rule;

use fragment_types::{BoxPart, FragmentKind, UnitKind};
use std::alloc::{AllocError, Global};
use std::rc::Rc;
use wm_modes::WritingMode;

/// The kind of a fragment in a mode: a box and a line are of that mode, a run stands as sideways text does in its lines. The units
/// of a run are shared.
pub(crate) fn kind_in(
    alloc: Global,
    mode: WritingMode,
    kind: &FragmentKind,
) -> Result<FragmentKind, AllocError>
    ensures { IfOk result (λ own. kind_of own ≡ rule.kind_in mode (kind_of kind.now)) }
{
    let own = match kind {
        FragmentKind::Box(part) => FragmentKind::Box(Rc::new(alloc, BoxPart { mode, ..**part })?),
        FragmentKind::Line {
            index,
            base,
            mode: _,
            baseline,
        } => FragmentKind::Line {
            index: *index,
            base: *base,
            mode,
            baseline: *baseline,
        },
        FragmentKind::Span => FragmentKind::Span,
        FragmentKind::Run {
            form,
            level,
            natural,
            units,
        } => FragmentKind::Run {
            form: form_in(mode, *form),
            level: *level,
            natural: *natural,
            units: units.clone()?,
        },
        FragmentKind::Measure { min, max } => FragmentKind::Measure {
            min: *min,
            max: *max,
        },
    };
    Ok(own)
}

// How sideways text that stands so in the lines of horizontal-tb stands in those of a mode: where text can stand upright in them,
// what is along the line is turned by a quarter.
fn form_in(mode: WritingMode, form: UnitKind) -> UnitKind
    ensures { result ≡ rule.form_in mode form }
{
    match (mode.has_upright_text(), form) {
        (true, UnitKind::Along) => UnitKind::Turned,
        (true, UnitKind::Turned) => UnitKind::Along,
        (_, form) => form,
    }
}
