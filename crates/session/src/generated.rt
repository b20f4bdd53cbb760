//! What is made of a styled document before anything is laid out: its boxes, and the positions of its nodes (docs/PROFILE/boxes.md and
//! docs/PROFILE/positions.md).

ghost use Rattle.std.specs.Prelude.{◌≡◌, IfOk};
ghost use Rattle.style_types.specs.Tree.{nodes_of};
ghost use Rattle.box_gen.specs.Boxes.{root_boxes};
ghost use Rattle.box_gen.specs.Tree.{boxes_of};
ghost use Rattle.session.specs.Kept.{ArePositions};

use box_gen::{BoxTree, boxes};
use rel_shift::{has_relative, positions};
use std::alloc::{AllocError, Global};
use style_types::{Positions, StyledNode};

/// The boxes of a document, and the positions of its nodes.
#[derive(Drop)]
pub(crate) struct Generated {
    pub(crate) tree: BoxTree,
    /// None where no element is relatively positioned.
    pub(crate) positions: Option<Positions>,
}

/// The boxes of a styled tree, with its positions.
pub(crate) fn generate(alloc: Global, root: &StyledNode) -> Result<Generated, AllocError>
    ensures boxes { IfOk result (λ made. boxes_of made.tree ≡ root_boxes (nodes_of root.now)) }
    ensures positions { IfOk result (λ made. ArePositions made.positions (nodes_of root.now)) }
{
    let tree = boxes(alloc, root)?;
    let positions = relative_positions(alloc, root)?;
    Ok(Generated { tree, positions })
}

// The positions of a styled tree where an element is relatively positioned.
fn relative_positions(alloc: Global, root: &StyledNode) -> Result<Option<Positions>, AllocError>
    ensures { IfOk result (λ made. ArePositions made (nodes_of root.now)) }
{
    if has_relative(root) {
        let made = positions(alloc, root)?;
        Ok(Some(made))
    } else {
        Ok(None)
    }
}
