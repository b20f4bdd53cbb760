//! What the boxes of nodes have of those above them.

ghost use Rattle.std.specs.Prelude.{◌≡◌};
ghost use Rattle.box_gen.specs.Site as definitions;

use crate::orthogonal::{MOST_ORTHOGONAL, turns_in};
use crate::role::Role;
use wm_modes::WritingMode;

/// What the boxes of those nodes have of the boxes above them that stand in an element.
#[derive(Clone, Copy)]
pub struct Site {
    /// The mode of their containing block.
    pub mode: WritingMode,
    /// How many boxes from the root down to their containing block are orthogonal to theirs; seven stand for more.
    pub turns: u32,
    /// They make boxes at all.
    pub shown: bool,
}

impl Site {
    /// In the root, which has this mode.
    pub fn in_root(mode: WritingMode) -> Site
        ensures { result ≡ definitions.in_root mode }
    {
        Site {
            mode,
            turns: 0,
            shown: true,
        }
    }

    /// Where no boxes are made.
    pub fn hidden(mode: WritingMode) -> Site
        ensures { result ≡ definitions.hidden mode }
    {
        Site {
            shown: false,
            ..Site::in_root(mode)
        }
    }

    /// In a node of this role and mode that stands here.
    pub fn in_node(self, role: Role, mode: WritingMode) -> Site
        ensures { result ≡ definitions.in_node role mode self }
    {
        match role {
            Role::Nothing | Role::Words | Role::LineBreak => Site {
                shown: false,
                ..self
            },
            Role::InlineBox => self,
            Role::Atom | Role::BlockLevel => Site {
                mode,
                turns: turns_in(self.mode, mode, self.turns),
                shown: self.shown,
            },
        }
    }

    /// Whether too many are orthogonal with the box of a node of this role and mode that stands here.
    pub fn is_past(self, role: Role, mode: WritingMode) -> bool
        ensures { result ≡ definitions.is_past role mode self }
    {
        self.shown && role.is_container() && turns_in(self.mode, mode, self.turns) > MOST_ORTHOGONAL
    }
}
