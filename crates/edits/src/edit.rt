//! What an edit says.

ghost use Rattle.std.specs.Prelude.{◌≡◌};
ghost use Rattle.edits.specs.Change.{change_of, is_tree};

use crate::TreeEdit;
use css_types::Rules;

/// An edit of a document that is open.
#[derive(Debug, Drop)]
pub enum Edit {
    /// Its tree is edited.
    Tree(TreeEdit),
    /// A face advances this far, in thousandths of the font size, behind a character that is set upright or not.
    Metric {
        face: u8,
        c: char,
        upright: bool,
        value: u32,
    },
    /// A face is given up: where it was used, face 0 is from now on.
    Retire {
        face: u8,
    },
    /// Rules come behind all rules of the author.
    Rule {
        rules: Rules,
    },
    /// A rule of the author goes. They are counted from 0, without those of the default sheet.
    Unrule {
        index: u32,
    },
}

impl Edit {
    /// Whether it is of the tree. Takes no memory.
    pub fn is_tree(&self) -> bool
        ensures { result ≡ is_tree (change_of self.now) }
    {
        match self {
            Edit::Tree(_) => true,
            Edit::Metric { .. } | Edit::Retire { .. } | Edit::Rule { .. } | Edit::Unrule { .. } =>
                false,
        }
    }
}
