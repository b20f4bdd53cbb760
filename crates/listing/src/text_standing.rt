//! What the text of a listing stands in: a writing mode of the page, or the flow.

ghost use Rattle.std.specs.Prelude.{◌≡◌};
ghost use Rattle.fragment_types.specs.Fragment.{kind_of};
ghost use Rattle.listing.specs.TextStanding as spec;

use fragment_types::FragmentKind;
use wm_modes::WritingMode;

/// What the text of a fragment stands in.
#[derive(Clone, Copy)]
pub(crate) enum TextStanding {
    /// This writing mode, by which it stands on the page.
    InMode(WritingMode),
    /// The flow, which has not been given a mode: nothing is told of how the text stands.
    OnFlow,
}

/// What the text inside a fragment of this kind stands in.
pub(crate) fn standing_inside(standing: TextStanding, kind: &FragmentKind) -> TextStanding
    ensures { result ≡ spec.standing_inside standing (kind_of kind.now) }
{
    match standing {
        TextStanding::InMode(mode) => TextStanding::InMode(mode_inside(mode, kind)),
        TextStanding::OnFlow => TextStanding::OnFlow,
    }
}

// The mode of the text in a fragment of this kind.
fn mode_inside(mode: WritingMode, kind: &FragmentKind) -> WritingMode
    ensures { result ≡ spec.mode_inside mode (kind_of kind.now) }
{
    match kind {
        FragmentKind::Box(part) => part.mode,
        FragmentKind::Line { mode: own, .. } => *own,
        FragmentKind::Span | FragmentKind::Run { .. } | FragmentKind::Measure { .. } => mode,
    }
}
