//! Sizes, margins, paddings, borders and insets (CSS 2, 8.3 to 8.5, 10.2 and 10.4; CSS Positioned Layout 3, 3.1).

ghost use Rattle.std.specs.Prelude.{◌≡◌};
ghost use Rattle.style_types.specs.Style.{AreBorders, AreInsets, IsExtent, IsMargin, IsPadding, IsSize, OnSides};
ghost use Rattle.computed.specs.Lengths.{IsFontSize};
ghost use Rattle.computed.specs.Sides as sides;

use crate::lengths::extent_of;
use crate::values::{is_drawn, margin_of, size_of};
use crate::winners::{Marked, said};
use css_types::Property;
use style_types::{Insets, SideSizes, SideWidths, Size};

// The width of a border that says none: `medium`, which is three pixels.
const MEDIUM: i64 = 192;

/// A size, a minimum or a maximum (CSS 2, 10.2 and 10.4).
#[tactic(auto, unfolding(crate::specs::Sides::size_at, style_types::specs::Initial::initial))]
pub fn size_at(font_size: i64, winners: &Marked, property: Property) -> Size
    requires font_size { IsFontSize font_size }
    ensures value { result ≡ sides.size_at font_size winners.now.list.now.items property }
    ensures bounded { IsSize result }
{
    match said(winners, property) {
        None => Size::Auto,
        Some(value) => size_of(font_size, value).unwrap_or(Size::Auto),
    }
}

/// The margins (CSS 2, 8.3).
#[tactic(auto, unfolding(crate::specs::Sides::margins))]
pub fn margins(font_size: i64, winners: &Marked) -> SideSizes
    requires font_size { IsFontSize font_size }
    ensures value { result ≡ sides.margins font_size winners.now.list.now.items }
    ensures bounded { OnSides IsMargin result }
{
    SideSizes {
        top: margin_at(font_size, winners, Property::MarginTop),
        right: margin_at(font_size, winners, Property::MarginRight),
        bottom: margin_at(font_size, winners, Property::MarginBottom),
        left: margin_at(font_size, winners, Property::MarginLeft),
    }
}

#[tactic(auto, unfolding(crate::specs::Sides::margin_at, style_types::specs::Initial::initial))]
fn margin_at(font_size: i64, winners: &Marked, property: Property) -> Size
    requires font_size { IsFontSize font_size }
    ensures value { result ≡ sides.margin_at font_size winners.now.list.now.items property }
    ensures bounded { IsMargin result }
{
    match said(winners, property) {
        None => Size::Length(0),
        Some(value) => margin_of(font_size, value).unwrap_or(Size::Length(0)),
    }
}

/// The paddings (CSS 2, 8.4).
#[tactic(auto, unfolding(crate::specs::Sides::paddings))]
pub fn paddings(font_size: i64, winners: &Marked) -> SideSizes
    requires font_size { IsFontSize font_size }
    ensures value { result ≡ sides.paddings font_size winners.now.list.now.items }
    ensures bounded { OnSides IsPadding result }
{
    SideSizes {
        top: padding_at(font_size, winners, Property::PaddingTop),
        right: padding_at(font_size, winners, Property::PaddingRight),
        bottom: padding_at(font_size, winners, Property::PaddingBottom),
        left: padding_at(font_size, winners, Property::PaddingLeft),
    }
}

#[tactic(auto, unfolding(crate::specs::Sides::padding_at, style_types::specs::Initial::initial))]
fn padding_at(font_size: i64, winners: &Marked, property: Property) -> Size
    requires font_size { IsFontSize font_size }
    ensures value { result ≡ sides.padding_at font_size winners.now.list.now.items property }
    ensures bounded { IsPadding result }
{
    match said(winners, property) {
        None => Size::Length(0),
        Some(value) => size_of(font_size, value).unwrap_or(Size::Length(0)),
    }
}

/// The widths of the borders (CSS 2, 8.5.1).
#[tactic(auto, unfolding(crate::specs::Sides::borders))]
pub fn borders(font_size: i64, winners: &Marked) -> SideWidths
    requires font_size { IsFontSize font_size }
    ensures value { result ≡ sides.borders font_size winners.now.list.now.items }
    ensures bounded { AreBorders result }
{
    SideWidths {
        top: border_at(
            font_size,
            winners,
            Property::BorderTopStyle,
            Property::BorderTopWidth,
        ),
        right: border_at(
            font_size,
            winners,
            Property::BorderRightStyle,
            Property::BorderRightWidth,
        ),
        bottom: border_at(
            font_size,
            winners,
            Property::BorderBottomStyle,
            Property::BorderBottomWidth,
        ),
        left: border_at(
            font_size,
            winners,
            Property::BorderLeftStyle,
            Property::BorderLeftWidth,
        ),
    }
}

// A border of no style has no width (CSS 2, 8.5.3).
#[tactic(auto, unfolding(crate::specs::Sides::border_at))]
fn border_at(font_size: i64, winners: &Marked, style: Property, width: Property) -> i64
    requires font_size { IsFontSize font_size }
    ensures value { result ≡ sides.border_at font_size winners.now.list.now.items style width }
    ensures bounded { IsExtent result }
{
    if !is_drawn(said(winners, style)) {
        return 0;
    }
    match said(winners, width) {
        None => MEDIUM,
        Some(value) => extent_of(font_size, value).unwrap_or(MEDIUM),
    }
}

/// The insets (CSS Positioned Layout 3, 3.1).
#[tactic(auto, unfolding(crate::specs::Sides::insets))]
pub fn insets(font_size: i64, winners: &Marked) -> Insets
    requires font_size { IsFontSize font_size }
    ensures value { result ≡ sides.insets font_size winners.now.list.now.items }
    ensures bounded { AreInsets result }
{
    Insets {
        top: inset_at(font_size, winners, Property::InsetTop),
        right: inset_at(font_size, winners, Property::InsetRight),
        bottom: inset_at(font_size, winners, Property::InsetBottom),
        left: inset_at(font_size, winners, Property::InsetLeft),
    }
}

#[tactic(auto, unfolding(crate::specs::Sides::inset_at, style_types::specs::Initial::initial))]
fn inset_at(font_size: i64, winners: &Marked, property: Property) -> Size
    requires font_size { IsFontSize font_size }
    ensures value { result ≡ sides.inset_at font_size winners.now.list.now.items property }
    ensures bounded { IsMargin result }
{
    match said(winners, property) {
        None => Size::Auto,
        Some(value) => margin_of(font_size, value).unwrap_or(Size::Auto),
    }
}
