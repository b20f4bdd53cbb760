//! What values compute to, where they are values of the property (CSS 2, 6.1.2).

ghost use Rattle.std.specs.Prelude.{◌≡◌, ◌<◌, IfSome};
ghost use Rattle.defaulting.specs.SimpleValues as simple;
ghost use Rattle.style_types.specs.Style.{IsCombine, IsLength, IsLineHeight, IsMargin, IsPadding};
ghost use Rattle.css_types.specs.Value.{HasSayable};
ghost use Rattle.computed.specs.Lengths.{IsFontSize};
ghost use Rattle.computed.specs.Values as values;

use crate::lengths::{extent_of, length_of};
use css_types::{Keyword, Value};
use style_types::{Align, Combine, Display, LineHeight, Size, UnicodeBidi};
use wm_units::{cap, percent};

/// CSS 2, 9.2.4.
pub fn display_of(value: Value) -> Option<Display>
    ensures { result ≡ simple.display_of value }
{
    match value {
        Value::Keyword(Keyword::Block) => Some(Display::Block),
        Value::Keyword(Keyword::Inline) => Some(Display::Inline),
        Value::Keyword(Keyword::InlineBlock) => Some(Display::InlineBlock),
        Value::Keyword(Keyword::FlowRoot) => Some(Display::FlowRoot),
        Value::Keyword(Keyword::None) => Some(Display::Hidden),
        _ => None,
    }
}

/// CSS Writing Modes 4, 9.1.
pub fn combine_of(value: Value) -> Option<Combine>
    ensures value { result ≡ values.combine_of value }
    ensures bounded { IfSome result IsCombine }
{
    match value {
        Value::Keyword(Keyword::None) => Some(Combine::Never),
        Value::Keyword(Keyword::All) => Some(Combine::All),
        Value::Digits(most) if 2 <= most && most <= 4 => Some(Combine::Digits(most)),
        _ => None,
    }
}

/// CSS Writing Modes 4, 2.2.
pub fn bidi_of(value: Value) -> Option<UnicodeBidi>
    ensures { result ≡ simple.bidi_of value }
{
    match value {
        Value::Keyword(Keyword::Normal) => Some(UnicodeBidi::Normal),
        Value::Keyword(Keyword::Embed) => Some(UnicodeBidi::Embed),
        Value::Keyword(Keyword::Isolate) => Some(UnicodeBidi::Isolate),
        Value::Keyword(Keyword::BidiOverride) => Some(UnicodeBidi::BidiOverride),
        Value::Keyword(Keyword::IsolateOverride) => Some(UnicodeBidi::IsolateOverride),
        Value::Keyword(Keyword::Plaintext) => Some(UnicodeBidi::Plaintext),
        _ => None,
    }
}

/// CSS Positioned Layout 3, 2.
pub fn relative_of(value: Value) -> Option<bool>
    ensures { result ≡ simple.relative_of value }
{
    match value {
        Value::Keyword(Keyword::Static) => Some(false),
        Value::Keyword(Keyword::Relative) => Some(true),
        _ => None,
    }
}

/// One of the eight faces.
pub fn face_of(value: Value) -> Option<u8>
    ensures value { result ≡ values.face_of value }
    ensures bounded { IfSome result (λ face. face < 8) }
{
    match value {
        Value::Face(number) if number <= 7 => Some(number),
        _ => None,
    }
}

/// A number stays one, a percentage is a length of the element's own font size (CSS 2, 10.8.1).
pub fn line_height_of(font_size: i64, value: Value) -> Option<LineHeight>
    requires font_size { IsFontSize font_size }
    requires value { HasSayable value }
    ensures value { result ≡ values.line_height_of font_size value }
    ensures bounded { IfSome result IsLineHeight }
{
    match value {
        Value::Keyword(Keyword::Normal) => Some(LineHeight::Normal),
        Value::Number(hundredths) if hundredths >= 0 => Some(LineHeight::Number(hundredths)),
        Value::Percent(hundredths) if hundredths >= 0 => {
            Some(LineHeight::Length(cap(percent(hundredths, font_size))))
        }
        _ => Some(LineHeight::Length(extent_of(font_size, value)?)),
    }
}

/// CSS 2, 16.2.
pub fn align_of(value: Value) -> Option<Align>
    ensures { result ≡ simple.align_of value }
{
    match value {
        Value::Keyword(Keyword::Start) => Some(Align::Start),
        Value::Keyword(Keyword::End) => Some(Align::End),
        Value::Keyword(Keyword::Left) => Some(Align::Left),
        Value::Keyword(Keyword::Right) => Some(Align::Right),
        Value::Keyword(Keyword::Center) => Some(Align::Center),
        _ => None,
    }
}

/// The baseline is moved by nothing (CSS 2, 10.8.1).
pub fn shift_of(font_size: i64, value: Value) -> Option<i64>
    requires font_size { IsFontSize font_size }
    requires value { HasSayable value }
    ensures value { result ≡ values.shift_of font_size value }
    ensures bounded { IfSome result IsLength }
{
    match value {
        Value::Keyword(Keyword::Baseline) => Some(0),
        _ => length_of(font_size, value),
    }
}

/// A size, minimum, maximum or padding that isn't a keyword (CSS 2, 8.4, 10.2 and 10.4).
pub fn size_of(font_size: i64, value: Value) -> Option<Size>
    requires font_size { IsFontSize font_size }
    requires value { HasSayable value }
    ensures value { result ≡ values.size_of font_size value }
    ensures bounded { IfSome result IsPadding }
{
    match value {
        Value::Percent(hundredths) if hundredths >= 0 => Some(Size::Percent(hundredths)),
        _ => Some(Size::Length(extent_of(font_size, value)?)),
    }
}

/// CSS 2, 8.3.
pub fn margin_of(font_size: i64, value: Value) -> Option<Size>
    requires font_size { IsFontSize font_size }
    requires value { HasSayable value }
    ensures value { result ≡ values.margin_of font_size value }
    ensures bounded { IfSome result IsMargin }
{
    match value {
        Value::Keyword(Keyword::Auto) => Some(Size::Auto),
        Value::Percent(hundredths) => Some(Size::Percent(hundredths)),
        _ => Some(Size::Length(length_of(font_size, value)?)),
    }
}

/// Whether a border of this style is drawn: any but `none` and `hidden` (CSS 2, 8.5.3).
pub fn is_drawn(style: Option<Value>) -> bool
    ensures { result ≡ values.is_drawn style }
{
    match style {
        Some(
            Value::Keyword(
                Keyword::Dotted
                | Keyword::Dashed
                | Keyword::Solid
                | Keyword::Double
                | Keyword::Groove
                | Keyword::Ridge
                | Keyword::Inset
                | Keyword::Outset,
            ),
        ) => true,
        _ => false,
    }
}
