//! Lengths of computed styles, in units of 1/64 px (CSS 2, 4.3.2 and 4.3.3).

ghost use Rattle.std.specs.Prelude.{◌≡◌, ℤ, pos, ◌≤ℤ◌, IfSome};
ghost use Rattle.style_types.specs.Style.{IsExtent, IsLength};
ghost use Rattle.css_types.specs.Value.{HasSayable};
ghost use Rattle.computed.specs.Lengths as lengths;
ghost use Rattle.computed.specs.Lengths.{IsFontSize};

use css_types::Value;
use wm_units::{cap, fixed, percent, scaled};

const GREATEST_FONT_SIZE: i64 = 65_536;

/// A length, of which `em` is of this font size. `None` where the value is none.
pub fn length_of(font_size: i64, value: Value) -> Option<i64>
    requires font_size { IsFontSize font_size }
    requires value { HasSayable value }
    ensures value { result ≡ lengths.length_of font_size value }
    ensures length { IfSome result IsLength }
{
    match value {
        Value::Px(hundredths) => Some(cap(fixed(hundredths))),
        Value::Em(hundredths) => Some(cap(scaled(hundredths, font_size))),
        _ => None,
    }
}

/// A length from 0 on, of which `em` is of this font size. `None` where the value is none.
pub fn extent_of(font_size: i64, value: Value) -> Option<i64>
    requires font_size { IsFontSize font_size }
    requires value { HasSayable value }
    ensures value { result ≡ lengths.extent_of font_size value }
    ensures extent { IfSome result IsExtent }
{
    match value {
        Value::Px(hundredths) if hundredths >= 0 => Some(cap(fixed(hundredths))),
        Value::Em(hundredths) if hundredths >= 0 => Some(cap(scaled(hundredths, font_size))),
        _ => None,
    }
}

/// A font size, of which `em` and percentages are of the parent's (CSS Fonts 3, 3.5). `None` where the value is none.
pub fn font_size_of(parent: i64, value: Value) -> Option<i64>
    requires parent { IsFontSize parent }
    requires value { HasSayable value }
    ensures value { result ≡ lengths.font_size_of parent value }
    ensures size { IfSome result IsFontSize }
{
    match value {
        Value::Px(hundredths) if hundredths >= 0 => Some(held_font_size(fixed(hundredths))),
        Value::Em(hundredths) if hundredths >= 0 => {
            Some(held_font_size(scaled(hundredths, parent)))
        }
        Value::Percent(hundredths) if hundredths >= 0 => {
            Some(held_font_size(percent(hundredths, parent)))
        }
        _ => None,
    }
}

fn held_font_size(units: i64) -> i64
    ensures value { result ≡ lengths.held_font_size units }
    ensures held { IsFontSize result }
{
    units.clamp(0, GREATEST_FONT_SIZE)
}
