//! Which property of the page stands for a property of a flow (CSS Logical Properties 1, 4).

ghost use Rattle.std.specs.Prelude.{◌≡◌};
ghost use Rattle.css_types.specs.Page as pages;
ghost use Rattle.css_types.specs.Page.{IsPageOf};

use crate::property::Property;
use crate::reach::{Axis, AxisFamily, Reach, SideFamily, on_page};
use wm_modes::{Direction, Side, WritingMode};

/// The property of the page that stands for this one in a mode and a used direction. A property that is about the
/// page or about the whole box stands for itself. Takes no memory.
pub fn page_property(property: Property, mode: WritingMode, dir: Direction) -> Property
    ensures stands { IsPageOf mode dir property result }
    ensures page { result ≡ pages.page_of mode dir property }
{
    about(on_page(property.row().reach, mode, dir), property)
}

// The property that is about this of a box, which is another one where this is a side or an axis of the page.
fn about(reach: Reach, other: Property) -> Property
    ensures { result ≡ pages.about reach other }
{
    match reach {
        Reach::PhysicalSide(family, side) => side_property(family, side),
        Reach::PhysicalAxis(family, axis) => axis_property(family, axis),
        Reach::Whole | Reach::FlowSide(_, _) | Reach::FlowAxis(_, _) => other,
    }
}

fn side_property(family: SideFamily, side: Side) -> Property
    ensures { result ≡ pages.side_property family side }
{
    match (family, side) {
        (SideFamily::Margin, Side::Top) => Property::MarginTop,
        (SideFamily::Margin, Side::Right) => Property::MarginRight,
        (SideFamily::Margin, Side::Bottom) => Property::MarginBottom,
        (SideFamily::Margin, Side::Left) => Property::MarginLeft,
        (SideFamily::Padding, Side::Top) => Property::PaddingTop,
        (SideFamily::Padding, Side::Right) => Property::PaddingRight,
        (SideFamily::Padding, Side::Bottom) => Property::PaddingBottom,
        (SideFamily::Padding, Side::Left) => Property::PaddingLeft,
        (SideFamily::BorderWidth, Side::Top) => Property::BorderTopWidth,
        (SideFamily::BorderWidth, Side::Right) => Property::BorderRightWidth,
        (SideFamily::BorderWidth, Side::Bottom) => Property::BorderBottomWidth,
        (SideFamily::BorderWidth, Side::Left) => Property::BorderLeftWidth,
        (SideFamily::BorderStyle, Side::Top) => Property::BorderTopStyle,
        (SideFamily::BorderStyle, Side::Right) => Property::BorderRightStyle,
        (SideFamily::BorderStyle, Side::Bottom) => Property::BorderBottomStyle,
        (SideFamily::BorderStyle, Side::Left) => Property::BorderLeftStyle,
        (SideFamily::Inset, Side::Top) => Property::InsetTop,
        (SideFamily::Inset, Side::Right) => Property::InsetRight,
        (SideFamily::Inset, Side::Bottom) => Property::InsetBottom,
        (SideFamily::Inset, Side::Left) => Property::InsetLeft,
    }
}

fn axis_property(family: AxisFamily, axis: Axis) -> Property
    ensures { result ≡ pages.axis_property family axis }
{
    match (family, axis) {
        (AxisFamily::Size, Axis::Horizontal) => Property::Width,
        (AxisFamily::Size, Axis::Vertical) => Property::Height,
        (AxisFamily::MinSize, Axis::Horizontal) => Property::MinWidth,
        (AxisFamily::MinSize, Axis::Vertical) => Property::MinHeight,
        (AxisFamily::MaxSize, Axis::Horizontal) => Property::MaxWidth,
        (AxisFamily::MaxSize, Axis::Vertical) => Property::MaxHeight,
    }
}
