//! Inline boxes that are open.

use style_types::SharedStyle;

/// An inline box that has started and doesn't stop yet, by its node and its style.
#[derive(Drop)]
pub struct Opened {
    pub node: u32,
    pub style: SharedStyle,
}
