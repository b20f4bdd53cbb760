//! What box a node makes (CSS 2, 9.2.1 and 9.2.2).

ghost use Rattle.std.specs.Prelude.{◌≡◌};
ghost use Rattle.dom_store.specs.State.{what_of};
ghost use Rattle.box_limits.specs.Lines.{role_at};

use box_gen::{Role, role_of_break, role_of_element};
use dom_store::NodeKind;
use html_tokens::Tag;
use style_types::Style;

/// What a node of this style is to its container.
pub(crate) fn role_of(kind: &NodeKind, style: &Style) -> Role
    ensures { result ≡ role_at (what_of kind.now) style.now }
{
    match kind {
        NodeKind::Element { tag: Tag::Br, .. } => role_of_break(style.display),
        NodeKind::Element { .. } => role_of_element(style.display),
        NodeKind::Text { .. } => Role::Words,
    }
}
