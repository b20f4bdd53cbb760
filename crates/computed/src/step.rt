//! The style of an element from its parent's and from the values that won (CSS 2, 6.1.2; CSS Writing Modes 4, 3.2).

ghost use Rattle.std.specs.Prelude.{◌≡◌, ◌<◌};
ghost use Rattle.std.specs.List.{All};
ghost use Rattle.style_types.specs.Style.{IsBounded, IsCombine, IsLength, IsLineHeight};
ghost use Rattle.css_types.specs.Value.{HasSayable};
ghost use Rattle.computed.specs.Lengths.{IsFontSize};
ghost use Rattle.computed.specs.Step as step;

use crate::lengths::font_size_of;
use crate::sides::{borders, insets, margins, paddings, size_at};
use crate::values::{
    align_of, bidi_of, combine_of, display_of, face_of, line_height_of, relative_of, shift_of,
};
use crate::winners::{Marked, said, won};
use css_types::{Property, Winners};
use defaulting::{computed_direction, computed_mode, computed_orientation};
use style_types::{Align, Combine, Display, LineHeight, Style, TextOrientation, UnicodeBidi};
use wm_modes::{Direction, WritingMode};

/// The style of an element, from its parent's and from the values that won for it. Each property is inherited, has its
/// initial value or computes to what its value says, `em` by the element's own font size; a box whose mode isn't its
/// parent's turns to an inline-block or a flow root. Goes through the winners once for each property that has one. Takes
/// no memory.
pub fn compute(parent: &Style, winners: &Winners) -> Style
    requires parent { IsBounded parent.now }
    requires winners { All (λ w. HasSayable w.1) winners.now.items }
    ensures style { result ≡ step.style_of parent.now winners.now.items }
    ensures bounded { IsBounded result }
{
    let winners = Marked::of(winners);
    sized(parent, own_font_size(parent, &winners), &winners)
}

// The style of an element whose font size is known.
#[tactic(auto, unfolding(crate::specs::Step::sized))]
fn sized(parent: &Style, font_size: i64, winners: &Marked) -> Style
    requires parent { IsBounded parent.now }
    requires font_size { IsFontSize font_size }
    ensures style { result ≡ step.sized parent.now font_size winners.now.list.now.items }
    ensures bounded { IsBounded result }
{
    let mode = own_mode(parent.mode, winners);
    Style {
        display: own_display(parent.mode, mode, winners),
        mode,
        direction: own_direction(parent.direction, winners),
        orientation: own_orientation(parent.orientation, winners),
        combine: own_combine(parent.combine, winners),
        bidi: own_bidi(winners),
        font_size,
        face: own_face(parent.face, winners),
        line_height: own_line_height(parent.line_height, font_size, winners),
        align: own_align(parent.align, winners),
        shift: own_shift(font_size, winners),
        width: size_at(font_size, winners, Property::Width),
        height: size_at(font_size, winners, Property::Height),
        min_width: size_at(font_size, winners, Property::MinWidth),
        min_height: size_at(font_size, winners, Property::MinHeight),
        max_width: size_at(font_size, winners, Property::MaxWidth),
        max_height: size_at(font_size, winners, Property::MaxHeight),
        margin: margins(font_size, winners),
        padding: paddings(font_size, winners),
        border: borders(font_size, winners),
        relative: own_relative(winners),
        insets: insets(font_size, winners),
    }
}

// ---- each property: inherited, initial, or what the winner says

// The element's own font size, of which its other lengths are.
#[tactic(auto, unfolding(crate::specs::Step::own_font_size, style_types::specs::Initial::initial))]
fn own_font_size(parent: &Style, winners: &Marked) -> i64
    requires parent { IsFontSize parent.now.font_size }
    ensures value { result ≡ step.own_font_size parent.now winners.now.list.now.items }
    ensures bounded { IsFontSize result }
{
    match said(winners, Property::FontSize) {
        None => parent.font_size,
        Some(value) => font_size_of(parent.font_size, value).unwrap_or(Style::initial().font_size),
    }
}

#[tactic(auto, unfolding(crate::specs::Step::own_mode))]
fn own_mode(parent: WritingMode, winners: &Marked) -> WritingMode
    ensures { result ≡ step.own_mode parent winners.now.list.now.items }
{
    computed_mode(parent, won(winners, Property::WritingMode))
}

#[tactic(auto, unfolding(crate::specs::Step::own_display, style_types::specs::Initial::initial))]
fn own_display(parent: WritingMode, mode: WritingMode, winners: &Marked) -> Display
    ensures { result ≡ step.own_display parent mode winners.now.list.now.items }
{
    let display = match said(winners, Property::Display) {
        None => Display::Inline,
        Some(value) => display_of(value).unwrap_or(Display::Inline),
    };
    turned(mode != parent, display)
}

// A box of another mode than its parent's turns (CSS Writing Modes 4, 3.2).
fn turned(differs: bool, display: Display) -> Display
    ensures { result ≡ step.turned differs display }
{
    match display {
        Display::Inline if differs => Display::InlineBlock,
        Display::Block if differs => Display::FlowRoot,
        _ => display,
    }
}

#[tactic(auto, unfolding(crate::specs::Step::own_direction))]
fn own_direction(parent: Direction, winners: &Marked) -> Direction
    ensures { result ≡ step.own_direction parent winners.now.list.now.items }
{
    computed_direction(parent, won(winners, Property::Direction))
}

#[tactic(auto, unfolding(crate::specs::Step::own_orientation))]
fn own_orientation(parent: TextOrientation, winners: &Marked) -> TextOrientation
    ensures { result ≡ step.own_orientation parent winners.now.list.now.items }
{
    computed_orientation(parent, won(winners, Property::TextOrientation))
}

#[tactic(auto, unfolding(crate::specs::Step::own_combine, style_types::specs::Initial::initial))]
fn own_combine(parent: Combine, winners: &Marked) -> Combine
    requires parent { IsCombine parent }
    ensures value { result ≡ step.own_combine parent winners.now.list.now.items }
    ensures bounded { IsCombine result }
{
    match said(winners, Property::TextCombineUpright) {
        None => parent,
        Some(value) => combine_of(value).unwrap_or(Combine::Never),
    }
}

#[tactic(auto, unfolding(crate::specs::Step::own_bidi, style_types::specs::Initial::initial))]
fn own_bidi(winners: &Marked) -> UnicodeBidi
    ensures { result ≡ step.own_bidi winners.now.list.now.items }
{
    match said(winners, Property::UnicodeBidi) {
        None => UnicodeBidi::Normal,
        Some(value) => bidi_of(value).unwrap_or(UnicodeBidi::Normal),
    }
}

#[tactic(auto, unfolding(crate::specs::Step::own_face, style_types::specs::Initial::initial))]
fn own_face(parent: u8, winners: &Marked) -> u8
    requires parent { parent < 8 }
    ensures value { result ≡ step.own_face parent winners.now.list.now.items }
    ensures bounded { result < 8 }
{
    match said(winners, Property::FontFamily) {
        None => parent,
        Some(value) => face_of(value).unwrap_or(0),
    }
}

#[tactic(auto, unfolding(crate::specs::Step::own_line_height, style_types::specs::Initial::initial))]
fn own_line_height(parent: LineHeight, font_size: i64, winners: &Marked) -> LineHeight
    requires parent { IsLineHeight parent }
    requires font_size { IsFontSize font_size }
    ensures value { result ≡ step.own_line_height parent font_size winners.now.list.now.items }
    ensures bounded { IsLineHeight result }
{
    match said(winners, Property::LineHeight) {
        None => parent,
        Some(value) => line_height_of(font_size, value).unwrap_or(LineHeight::Normal),
    }
}

#[tactic(auto, unfolding(crate::specs::Step::own_align, style_types::specs::Initial::initial))]
fn own_align(parent: Align, winners: &Marked) -> Align
    ensures { result ≡ step.own_align parent winners.now.list.now.items }
{
    match said(winners, Property::TextAlign) {
        None => parent,
        Some(value) => align_of(value).unwrap_or(Align::Start),
    }
}

#[tactic(auto, unfolding(crate::specs::Step::own_shift, style_types::specs::Initial::initial))]
fn own_shift(font_size: i64, winners: &Marked) -> i64
    requires font_size { IsFontSize font_size }
    ensures value { result ≡ step.own_shift font_size winners.now.list.now.items }
    ensures bounded { IsLength result }
{
    match said(winners, Property::VerticalAlign) {
        None => 0,
        Some(value) => shift_of(font_size, value).unwrap_or(0),
    }
}

#[tactic(auto, unfolding(crate::specs::Step::own_relative, style_types::specs::Initial::initial))]
fn own_relative(winners: &Marked) -> bool
    ensures { result ≡ step.own_relative winners.now.list.now.items }
{
    match said(winners, Property::Position) {
        None => false,
        Some(value) => relative_of(value).unwrap_or(false),
    }
}
