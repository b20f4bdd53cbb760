//! What of a box a property is about, and which properties of the page stand for those of a flow
//! (CSS Logical Properties 1, 4; CSS Writing Modes 4, 6 and 7.4).

ghost use Rattle.std.specs.Prelude.{◌≡◌};
ghost use Rattle.css_types.specs.Reach as reaches;

use wm_modes::{Direction, FlowSide, Side, WritingMode, side_of};

/// Properties that mean the same of different sides of a box.
#[derive(Clone, Copy, Debug, PartialEq, Eq)]
pub enum SideFamily {
    Margin,
    Padding,
    BorderWidth,
    BorderStyle,
    Inset,
}

/// Properties that mean the same of different axes of a box.
#[derive(Clone, Copy, Debug, PartialEq, Eq)]
pub enum AxisFamily {
    Size,
    MinSize,
    MaxSize,
}

/// An axis of the page.
#[derive(Clone, Copy, Debug, PartialEq, Eq)]
pub enum Axis {
    Horizontal,
    Vertical,
}

/// An axis of a flow.
#[derive(Clone, Copy, Debug, PartialEq, Eq)]
pub enum FlowAxis {
    Inline,
    Block,
}

/// What of a box a property is about (CSS Logical Properties 1, 4).
#[derive(Clone, Copy, Debug, PartialEq, Eq)]
pub enum Reach {
    /// The whole box.
    Whole,
    /// A side of the page.
    PhysicalSide(SideFamily, Side),
    /// A side of the flow: which side of the page it is hangs on the mode and the used direction.
    FlowSide(SideFamily, FlowSide),
    /// An axis of the page.
    PhysicalAxis(AxisFamily, Axis),
    /// An axis of the flow: which axis of the page it is hangs on the mode.
    FlowAxis(AxisFamily, FlowAxis),
}

/// What a reach is about once the mode and the used direction are known: a side or an axis of the flow is
/// one of the page.
pub fn on_page(reach: Reach, mode: WritingMode, dir: Direction) -> Reach
    ensures { result ≡ reaches.on_page mode dir reach }
{
    match reach {
        Reach::FlowSide(family, side) => Reach::PhysicalSide(family, side_of(mode, dir, side)),
        Reach::FlowAxis(family, axis) => Reach::PhysicalAxis(family, axis_of(mode, axis)),
        Reach::Whole | Reach::PhysicalSide(_, _) | Reach::PhysicalAxis(_, _) => reach,
    }
}

// Which axis of the page an axis of the flow is.
fn axis_of(mode: WritingMode, axis: FlowAxis) -> Axis
    ensures { result ≡ reaches.axis_of mode axis }
{
    match (mode.is_horizontal(), axis) {
        (true, FlowAxis::Inline) | (false, FlowAxis::Block) => Axis::Horizontal,
        (true, FlowAxis::Block) | (false, FlowAxis::Inline) => Axis::Vertical,
    }
}
