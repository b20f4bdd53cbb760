//! Defaulting: what a property's value comes to before other values are looked at (CSS Cascading 4, 7), and the
//! computed values that say how a box turns (CSS Writing Modes 4, 2.1, 3.2 and 5.1).

ghost use Rattle.std.specs.Prelude.{◌≡◌};
ghost use Rattle.defaulting.specs.Defaulting as defaults;

use css_types::{Keyword, Property, Value};
use style_types::TextOrientation;
use wm_modes::{Direction, WritingMode};

/// The specified value of a property, from the value that won for it, if one did. `None` is the parent's: of an
/// inherited property without a winner, or with `inherit`. Takes no memory.
pub fn specified(property: Property, winner: Option<Value>) -> Option<Value>
    ensures { result ≡ defaults.specified property winner }
{
    let row = property.row();
    match winner {
        Some(Value::Initial) => Some(row.initial),
        None | Some(Value::Inherit) if row.inherited => None,
        None | Some(Value::Inherit) => Some(row.initial),
        Some(value) => Some(value),
    }
}

/// The computed `writing-mode`, from that of the parent and the value that won. What isn't one of its values counts as
/// `initial`. Takes no memory.
#[tactic(auto, unfolding(style_types::specs::Initial::initial))]
pub fn computed_mode(parent: WritingMode, winner: Option<Value>) -> WritingMode
    ensures { result ≡ defaults.computed_mode parent winner }
{
    match specified(Property::WritingMode, winner) {
        None => parent,
        Some(Value::Keyword(Keyword::VerticalRl)) => WritingMode::VerticalRl,
        Some(Value::Keyword(Keyword::VerticalLr)) => WritingMode::VerticalLr,
        Some(Value::Keyword(Keyword::SidewaysRl)) => WritingMode::SidewaysRl,
        Some(Value::Keyword(Keyword::SidewaysLr)) => WritingMode::SidewaysLr,
        Some(_) => WritingMode::HorizontalTb,
    }
}

/// The computed `direction`, from that of the parent and the value that won. What isn't one of its values counts as
/// `initial`. Takes no memory.
#[tactic(auto, unfolding(style_types::specs::Initial::initial))]
pub fn computed_direction(parent: Direction, winner: Option<Value>) -> Direction
    ensures { result ≡ defaults.computed_direction parent winner }
{
    match specified(Property::Direction, winner) {
        None => parent,
        Some(Value::Keyword(Keyword::Rtl)) => Direction::Rtl,
        Some(_) => Direction::Ltr,
    }
}

/// The computed `text-orientation`, from that of the parent and the value that won. What isn't one of its values counts
/// as `initial`. Takes no memory.
#[tactic(auto, unfolding(style_types::specs::Initial::initial))]
pub fn computed_orientation(parent: TextOrientation, winner: Option<Value>) -> TextOrientation
    ensures { result ≡ defaults.computed_orientation parent winner }
{
    match specified(Property::TextOrientation, winner) {
        None => parent,
        Some(Value::Keyword(Keyword::Upright)) => TextOrientation::Upright,
        Some(Value::Keyword(Keyword::Sideways)) => TextOrientation::Sideways,
        Some(_) => TextOrientation::Mixed,
    }
}
