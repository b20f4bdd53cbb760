//! What a node is in a styled tree.

ghost use Rattle.std.specs.Prelude.{◌≡◌, IfOk};
ghost use Rattle.style_types.specs.Tree as trees;
ghost use Rattle.dom_store.specs.State.{what_of};
ghost use Rattle.style_tree.specs.Styling as definitions;

use dom_store::NodeKind;
use html_tokens::Tag;
use std::alloc::AllocError;
use style_types::StyledKind;

/// What a node is: an element, a `br`, or a copy of its text.
pub(crate) fn kind_of(kind: &NodeKind) -> Result<StyledKind, AllocError>
    ensures { IfOk result (λ copy. trees.kind_of copy ≡ definitions.kind_of (what_of kind.now)) }
{
    match kind {
        NodeKind::Element { tag: Tag::Br, .. } => Ok(StyledKind::Break),
        NodeKind::Element { .. } => Ok(StyledKind::Element),
        NodeKind::Text { text } => Ok(StyledKind::Text {
            text: text.clone()?,
        }),
    }
}
