//! What a node is to its container (CSS 2, 9.2.1 and 9.2.2).

ghost use Rattle.std.specs.Prelude.{◌≡◌};
ghost use Rattle.style_types.specs.Tree.{nodes_of};
ghost use Rattle.box_gen.specs.Boxes.{role_by, element_role, line_break};
ghost use Rattle.box_gen.specs.Building.{code_of, role_in};
ghost use Rattle.box_gen.specs.Site.{is_container};

use style_types::{Display, StyledKind, StyledNode};

/// What a node is to its container.
#[derive(Clone, Copy, PartialEq, Eq)]
pub enum Role {
    Nothing,
    Words,
    LineBreak,
    InlineBox,
    Atom,
    BlockLevel,
}

impl Role {
    /// Whether its box is a container anew.
    pub(crate) fn is_container(self) -> bool
        ensures { result ≡ is_container self }
    {
        match self {
            Role::Atom | Role::BlockLevel => true,
            Role::Nothing | Role::Words | Role::LineBreak | Role::InlineBox => false,
        }
    }
}

/// What this node is to its container.
pub fn role_of(node: &StyledNode) -> Role
    ensures { result ≡ role_in (nodes_of node.now) }
{
    let display = node.style.display;
    match node.kind {
        StyledKind::Text { .. } => Role::Words,
        StyledKind::Break => role_of_break(display),
        StyledKind::Element => role_of_element(display),
    }
}

/// What a line break of this display is.
pub fn role_of_break(display: Display) -> Role
    ensures { result ≡ code_of (role_by display line_break) }
{
    if display == Display::Hidden {
        Role::Nothing
    } else {
        Role::LineBreak
    }
}

/// What an element of this display is.
pub fn role_of_element(display: Display) -> Role
    ensures { result ≡ code_of (element_role display) }
{
    match display {
        Display::Block | Display::FlowRoot => Role::BlockLevel,
        Display::Inline => Role::InlineBox,
        Display::InlineBlock => Role::Atom,
        Display::Hidden => Role::Nothing,
    }
}
