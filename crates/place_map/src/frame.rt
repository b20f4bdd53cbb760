//! What carries fragments to the page: a containing block, a line or the view (CSS Writing Modes 4, 6.4).

ghost use Rattle.std.specs.Prelude.{◌≡◌};
ghost use Rattle.fragment_types.specs.Fragment.{kind_of};
ghost use Rattle.place_map.specs.Frame as rule;
ghost use Rattle.place_map.specs.Near.{IsNearFrame, IsNearKind};
ghost use Rattle.wm_modes.specs.Near.{IsNear, IsNearFlow};

use fragment_types::FragmentKind;
use wm_modes::{Direction, FlowRect, Rect, WritingMode, to_physical};
use wm_units::View;

/// What fragments are measured from: an area of the page, by a mode and a direction.
#[derive(Clone, Copy, Debug)]
pub(crate) struct Frame {
    pub(crate) mode: WritingMode,
    pub(crate) dir: Direction,
    pub(crate) area: Rect,
}

impl Frame {
    /// The view, in the mode and the direction of the root.
    pub(crate) fn of_view(view: View, root: &FragmentKind) -> Frame
        ensures { result ≡ rule.of_view view (kind_of root.now) }
    {
        let mode = root_mode(root);
        Frame {
            mode,
            dir: root_direction(root),
            area: page_of(view, mode),
        }
    }

    /// A rectangle that is measured from here, on the page.
    pub(crate) fn on_page(self, rect: FlowRect) -> Rect
        requires frame { IsNearFrame self }
        requires rect { IsNearFlow rect }
        ensures { result ≡ rule.on_page self rect }
    {
        to_physical(self.mode, self.dir, self.area, rect)
    }

    /// What the parts of a fragment of this kind are measured from, which stands here on the page.
    pub(crate) fn inside(self, kind: &FragmentKind, rect: Rect) -> Frame
        requires rect { IsNear rect }
        requires kind { IsNearKind (kind_of kind.now) }
        ensures { result ≡ rule.inside self (kind_of kind.now) rect }
    {
        match kind {
            FragmentKind::Box(part) => Frame {
                mode: part.mode,
                dir: part.dir,
                area: to_physical(self.mode, self.dir, rect, part.content),
            },
            FragmentKind::Line { mode, .. } => Frame {
                mode: line_mode(*mode),
                dir: Direction::Ltr,
                area: rect,
            },
            FragmentKind::Span | FragmentKind::Run { .. } | FragmentKind::Measure { .. } => self,
        }
    }
}

/// The mode of a root.
pub(crate) fn root_mode(root: &FragmentKind) -> WritingMode
    ensures { result ≡ rule.root_mode (kind_of root.now) }
{
    match root {
        FragmentKind::Box(part) => part.mode,
        FragmentKind::Line { .. }
        | FragmentKind::Span
        | FragmentKind::Run { .. }
        | FragmentKind::Measure { .. } => WritingMode::HorizontalTb,
    }
}

/// The used direction of a root.
pub(crate) fn root_direction(root: &FragmentKind) -> Direction
    ensures { result ≡ rule.root_direction (kind_of root.now) }
{
    match root {
        FragmentKind::Box(part) => part.dir,
        FragmentKind::Line { .. }
        | FragmentKind::Span
        | FragmentKind::Run { .. }
        | FragmentKind::Measure { .. } => Direction::Ltr,
    }
}

/// The page, whose sizes are told on the axes of a mode.
pub(crate) fn page_of(view: View, mode: WritingMode) -> Rect
    ensures { result ≡ rule.page_of view mode }
{
    if mode.is_horizontal() {
        page(view.inline, view.block)
    } else {
        page(view.block, view.inline)
    }
}

fn page(w: i64, h: i64) -> Rect
    ensures { result ≡ rule.page w h }
{
    Rect { x: 0, y: 0, w, h }
}

// The mode in which what stands in a line is measured from line-left and line-over. In vertical-lr line-over is at the right,
// where blocks start in vertical-rl.
fn line_mode(mode: WritingMode) -> WritingMode
    ensures { result ≡ rule.line_mode mode }
{
    match mode {
        WritingMode::VerticalLr => WritingMode::VerticalRl,
        WritingMode::HorizontalTb
        | WritingMode::VerticalRl
        | WritingMode::SidewaysRl
        | WritingMode::SidewaysLr => mode,
    }
}
