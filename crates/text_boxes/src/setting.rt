//! The boxes of a page in which a text gets other letters.

ghost use Rattle.std.specs.Prelude.{◌≡◌, IfOk, OnErr, IsTrue, false};
ghost use Rattle.std.specs.String.{string_bytes};
ghost use Rattle.slab.specs.Slab.{ContainsKey};
ghost use Rattle.box_arena.specs.Reusing.{IsTree};
ghost use Rattle.text_boxes.specs.Finding.{SetsTextAt};
ghost use Rattle.text_boxes.specs.Setting.{SetsText};

use crate::finding::{Found, find_in_box};
use crate::items::node_with;
use box_arena::{BoxArena, BoxKey, MOST_DEEP};
use letters::SharedText;
use std::alloc::{AllocError, Global};

/// Sets the text of this node in the one box under a root that holds it. `false`, with nothing changed, where no box holds it or more
/// than one does, where it has these letters, and where boxes are too many or too deep to look at all of them. It goes through all boxes under the root, and copies the items of that one.
pub fn set_text<T: Drop>(
    alloc: Global,
    arena: &mut BoxArena<T>,
    root: BoxKey,
    node: u32,
    text: &SharedText,
) -> Result<bool, AllocError>
    requires { IsTree arena.old.slots root }
    ensures set { IfOk result (λ done. IsTrue done → SetsText arena.old arena.new root node (string_bytes text.now)) }
    ensures not { IfOk result (λ done. done ≡ false → arena.new ≡ arena.old) }
    ensures err { OnErr result (arena.new ≡ arena.old) }
{
    match find_in_box(arena, root, node, MOST_DEEP) {
        Found::In(key) => set_text_at(alloc, arena, key, node, text),
        Found::Nowhere | Found::Unsure => Ok(false),
    }
}

// Sets the text of this node in a box. `false`, with nothing changed, where it has these letters.
fn set_text_at<T: Drop>(
    alloc: Global,
    arena: &mut BoxArena<T>,
    key: BoxKey,
    node: u32,
    text: &SharedText,
) -> Result<bool, AllocError>
    requires { ContainsKey arena.old key }
    ensures set { IfOk result (λ done. IsTrue done → SetsTextAt arena.old arena.new key node (string_bytes text.now)) }
    ensures not { IfOk result (λ done. done ≡ false → arena.new ≡ arena.old) }
    ensures err { OnErr result (arena.new ≡ arena.old) }
{
    match node_with(alloc, arena.node(key), node, text)? {
        Some(new) => {
            let _ = arena.restyle(key, new);
            Ok(true)
        }
        None => Ok(false),
    }
}
