//! What stands in a paragraph, one after the other (docs/PROFILE/boxes.md).

use letters::SharedText;
use style_types::SharedStyle;

/// The name of a box: the node that it is of, and which of that node's boxes it is: 0 the element's own, 1, 2, .. its
/// anonymous blocks in order.
#[derive(Clone, Copy, Debug, PartialEq, Eq)]
pub struct BoxName {
    pub node: u32,
    pub ordinal: usize,
}

/// An item of a paragraph. `Open` and `Close` are paired as brackets, both of a pair with one node.
#[derive(Debug, Drop)]
pub enum Item {
    /// The text of a text node, in the style of its parent.
    Text {
        node: u32,
        text: SharedText,
        style: SharedStyle,
    },
    /// An inline box begins; `opens` where this piece of it has its inline-start edges.
    Open {
        node: u32,
        style: SharedStyle,
        opens: bool,
    },
    /// An inline box ends; `closes` where this piece of it has its inline-end edges.
    Close {
        node: u32,
        closes: bool,
    },
    /// An inline-block, by the name of its box.
    Atom {
        name: BoxName,
    },
    /// A `br`.
    Break {
        node: u32,
    },
}
