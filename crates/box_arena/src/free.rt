//! Freeing a box and all inside it, without a recursion and without memory: what stands inside a child is lifted before
//! that child, one box a step, and a child with nothing inside is freed.

ghost use Rattle.std.specs.Prelude.{◌≡◌, None, Some};
ghost use Rattle.slab.specs.Slab.{ContainsKey};
ghost use Rattle.box_arena.specs.At.{IsSound, first_at, parent_at};
ghost use Rattle.box_arena.specs.Arena.{Releases};
ghost use Rattle.box_arena.specs.Free.{Steps};

use crate::entry::Entry;
use crate::links::{link, unlink};
use crate::write::{links_of, remove_at};
use slab::Slab;

/// Frees a box that isn't attached, and all inside it.
pub(crate) fn free<T: Drop>(boxes: &mut Slab<Entry<T>>, key: usize)
    requires live { ContainsKey boxes.old key }
    requires sound { IsSound boxes.old.slots }
    requires free { parent_at boxes.old.slots key ≡ None }
    ensures releases { Releases boxes.old boxes.new key }
    ensures sound { IsSound boxes.new.slots }
{
    let mut first = links_of(boxes, key).first;
    while let Some(child) = first {
        step(boxes, key, child);
        first = links_of(boxes, key).first;
    }
    remove_at(boxes, key);
}

// Lifts what stands first in a root's child, or frees that child.
fn step<T: Drop>(boxes: &mut Slab<Entry<T>>, root: usize, child: usize)
    requires live { ContainsKey boxes.old root }
    requires sound { IsSound boxes.old.slots }
    requires free { parent_at boxes.old.slots root ≡ None }
    requires child { parent_at boxes.old.slots child ≡ Some root }
    ensures { Steps boxes.old boxes.new root }
{
    match links_of(boxes, child).first {
        Some(inner) => lift(boxes, root, child, inner),
        None => drop_leaf(boxes, root, child),
    }
}

// Puts what stands first in a root's child before that child.
fn lift<T>(boxes: &mut Slab<Entry<T>>, root: usize, child: usize, inner: usize)
    requires live { ContainsKey boxes.old root }
    requires sound { IsSound boxes.old.slots }
    requires free { parent_at boxes.old.slots root ≡ None }
    requires child { parent_at boxes.old.slots child ≡ Some root }
    requires inner { parent_at boxes.old.slots inner ≡ Some child }
    ensures { Steps boxes.old boxes.new root }
{
    unlink(boxes, child, inner);
    link(boxes, root, Some(child), inner);
}

// Frees a root's child with nothing inside.
fn drop_leaf<T: Drop>(boxes: &mut Slab<Entry<T>>, root: usize, child: usize)
    requires live { ContainsKey boxes.old root }
    requires sound { IsSound boxes.old.slots }
    requires free { parent_at boxes.old.slots root ≡ None }
    requires child { parent_at boxes.old.slots child ≡ Some root }
    requires leaf { first_at boxes.old.slots child ≡ None }
    ensures { Steps boxes.old boxes.new root }
{
    unlink(boxes, root, child);
    remove_at(boxes, child);
}
