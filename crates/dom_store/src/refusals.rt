//! Why edits are refused. Nothing here changes a document.

ghost use Rattle.std.specs.Prelude.{◌≡◌, []};
ghost use Rattle.dom_store.specs.Edited.{refused_for};
ghost use Rattle.dom_store.specs.Edits.{remove, set_style, set_text};
ghost use Rattle.dom_store.specs.Refusals.{refusal};
ghost use Rattle.dom_store.specs.State.{state_of};

use crate::document::Document;
use crate::error::EditError;
use crate::node::NodeKind;

impl Document {
    /// Whether the text of this node may be set.
    pub(crate) fn check_text(&self, n: u32) -> Result<(), EditError>
        ensures { refused_for result ≡ refusal (state_of self.now) (set_text n []) }
    {
        match self.node(n) {
            None => Err(EditError::NoNode),
            Some(node) => match node.kind {
                NodeKind::Text { .. } => Ok(()),
                NodeKind::Element { .. } => Err(EditError::NotText),
            },
        }
    }

    /// Whether the own declarations or the class words of this node may be set.
    pub(crate) fn check_element(&self, n: u32) -> Result<(), EditError>
        ensures { refused_for result ≡ refusal (state_of self.now) (set_style n []) }
    {
        match self.node(n) {
            None => Err(EditError::NoNode),
            Some(node) => match node.kind {
                NodeKind::Text { .. } => Err(EditError::NotElement),
                NodeKind::Element { .. } => Ok(()),
            },
        }
    }

    /// Whether this node may be removed.
    pub(crate) fn check_removal(&self, n: u32) -> Result<(), EditError>
        ensures { refused_for result ≡ refusal (state_of self.now) (remove n) }
    {
        if self.node(n).is_none() {
            return Err(EditError::NoNode);
        }
        if n <= 1 {
            return Err(EditError::IsRoot);
        }
        Ok(())
    }
}
