//! Computed styles, and nodes with their styles (CSS 2, 6.1.2; CSS Writing Modes 4). Plain data with public fields.
#![tactic(auto)]

mod initial;
mod lists;
mod position;
mod shared_style;
mod style;
mod tree;

pub use lists::StyledNodes;
pub use position::{Position, Positions};
pub use shared_style::SharedStyle;
pub use style::{
    Align, Baseline, Combine, Display, Insets, LineHeight, SideSizes, SideWidths, Size, Style,
    TextOrientation, UnicodeBidi,
};
pub use tree::{StyledKind, StyledNode};
