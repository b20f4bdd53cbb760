//! What boxes have come to.

use fragment_types::Fragment;
use style_types::SharedStyle;

/// A box inside another, laid out: its style, and its fragment.
#[derive(Debug, Drop)]
pub(crate) struct LaidBox {
    pub(crate) style: SharedStyle,
    pub(crate) fragment: Fragment,
}

/// Boxes that stand side by side, laid out.
pub(crate) type LaidBoxes = Vec<LaidBox>;
