//! The limit of boxes (docs/PROFILE/boxes.md).

ghost use Rattle.std.specs.Prelude.{◌≡◌, ◌≤◌, length};
ghost use Rattle.box_gen.specs.Limit.{limit_node, limit_word};

use thiserror::Error;

/// The limit of boxes where a document passes it, with the least number of the node of such a box.
#[derive(Error, Clone, Copy, Debug, PartialEq, Eq)]
pub enum BoxLimit {
    /// More than six boxes on a line of ancestors are orthogonal to their containing blocks.
    #[error("TooManyOrthogonal {0}")]
    TooManyOrthogonal(u32),
}

impl BoxLimit {
    /// The word that a line of refusal has for it.
    #[tactic(auto, unfolding(crate::specs::Limit::limit_word))]
    pub fn word(self) -> &'static str
        ensures word { result.now ≡ limit_word self }
        ensures short { length result.now ≤ 17 }
    {
        match self {
            BoxLimit::TooManyOrthogonal(_) => "TooManyOrthogonal",
        }
    }

    /// The number of the node.
    pub fn node(self) -> u32
        ensures { result ≡ limit_node self }
    {
        match self {
            BoxLimit::TooManyOrthogonal(number) => number,
        }
    }
}
