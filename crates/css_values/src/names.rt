//! Names that mean the same in many properties.

/// The functions that are colours.
pub(crate) static COLOURS: [&str; 4] = ["rgb", "rgba", "hsl", "hsla"];

/// The values that take a declaration back, of any property (CSS Cascade 5, 7.3).
pub(crate) static RESETS: [&str; 3] = ["unset", "revert", "revert-layer"];
