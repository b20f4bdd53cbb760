//! Boxes put among others, and taken from among them. Takes no memory, and goes through no siblings.

ghost use Rattle.std.specs.Prelude.{◌≡◌, ◌≢◌, ℕ, ◌+◌, Some, None, IsSome};
ghost use Rattle.slab.specs.Slab.{ContainsKey};
ghost use Rattle.box_arena.specs.At.{IsSound, links_at, parent_at};
ghost use Rattle.box_arena.specs.Arena.{Detaches};
ghost use Rattle.box_arena.specs.Weight.{weight};
ghost use Rattle.box_arena.specs.Joining.{Joins, Parts, PutsAhead, PutsBehind};
ghost use Rattle.box_arena.specs.Links.{IsIn, IsLinked, ahead};
ghost use Rattle.box_arena.specs.Write.{OnlyLinks};

use crate::climb::mark_up;
use crate::entry::{Entry, Links};
use crate::write::{links_of, set_links};
use slab::Slab;

/// What stands ahead of a child, or the last child.
fn ahead_of<T>(boxes: &Slab<Entry<T>>, parent: usize, at: Option<usize>) -> Option<usize>
    requires parent { ContainsKey boxes.now parent }
    requires at { (k : ℕ) → at ≡ Some k → ContainsKey boxes.now k }
    ensures { result ≡ ahead (links_at boxes.now.slots) parent at }
{
    match at {
        None => links_of(boxes, parent).last,
        Some(key) => links_of(boxes, key).previous,
    }
}

/// Puts the sibling behind a child anew, or the first child.
fn put_behind<T>(boxes: &mut Slab<Entry<T>>, parent: usize, at: Option<usize>, next: Option<usize>)
    requires parent { ContainsKey boxes.old parent }
    requires at { (k : ℕ) → at ≡ Some k → ContainsKey boxes.old k }
    ensures behind { PutsBehind (links_at boxes.old.slots) (links_at boxes.new.slots) parent at next }
    ensures only { OnlyLinks boxes.old boxes.new }
    ensures weights { (root : ℕ) → weight root boxes.new.slots ≡ weight root boxes.old.slots }
{
    match at {
        None => {
            let links = links_of(boxes, parent);
            set_links(
                boxes,
                parent,
                Links {
                    first: next,
                    ..links
                },
            );
        }
        Some(key) => {
            let links = links_of(boxes, key);
            set_links(boxes, key, Links { next, ..links });
        }
    }
}

/// Puts the sibling ahead of a child anew, or the last child.
fn put_ahead<T>(
    boxes: &mut Slab<Entry<T>>,
    parent: usize,
    at: Option<usize>,
    previous: Option<usize>,
)
    requires parent { ContainsKey boxes.old parent }
    requires at { (k : ℕ) → at ≡ Some k → ContainsKey boxes.old k }
    ensures ahead { PutsAhead (links_at boxes.old.slots) (links_at boxes.new.slots) parent at previous }
    ensures only { OnlyLinks boxes.old boxes.new }
    ensures weights { (root : ℕ) → weight root boxes.new.slots ≡ weight root boxes.old.slots }
{
    match at {
        None => {
            let links = links_of(boxes, parent);
            set_links(
                boxes,
                parent,
                Links {
                    last: previous,
                    ..links
                },
            );
        }
        Some(key) => {
            let links = links_of(boxes, key);
            set_links(boxes, key, Links { previous, ..links });
        }
    }
}

/// Puts a box that isn't attached among the children of another, before one of them or last.
pub(crate) fn link<T>(
    boxes: &mut Slab<Entry<T>>,
    parent: usize,
    before: Option<usize>,
    child: usize,
)
    requires parent { ContainsKey boxes.old parent }
    requires child { ContainsKey boxes.old child }
    requires linked { IsLinked (links_at boxes.old.slots) }
    requires free { parent_at boxes.old.slots child ≡ None }
    requires inside { IsIn (links_at boxes.old.slots) parent before }
    ensures joins { Joins (links_at boxes.old.slots) (links_at boxes.new.slots) parent before child }
    ensures only { OnlyLinks boxes.old boxes.new }
    ensures lighter { weight parent boxes.new.slots + 1 ≡ weight parent boxes.old.slots }
{
    let after = ahead_of(boxes, parent, before);
    let links = links_of(boxes, child);
    set_links(
        boxes,
        child,
        Links {
            parent: Some(parent),
            previous: after,
            next: before,
            ..links
        },
    );
    put_behind(boxes, parent, after, Some(child));
    put_ahead(boxes, parent, before, Some(child));
}

/// Takes a child from among the others.
pub(crate) fn unlink<T>(boxes: &mut Slab<Entry<T>>, parent: usize, child: usize)
    requires linked { IsLinked (links_at boxes.old.slots) }
    requires inside { parent_at boxes.old.slots child ≡ Some parent }
    ensures parts { Parts (links_at boxes.old.slots) (links_at boxes.new.slots) parent child }
    ensures only { OnlyLinks boxes.old boxes.new }
    ensures heavier { weight parent boxes.new.slots ≡ weight parent boxes.old.slots + 1 }
    ensures others { (root : ℕ) → root ≢ parent → weight root boxes.new.slots ≡ weight root boxes.old.slots }
{
    let around = links_of(boxes, child);
    put_behind(boxes, parent, around.previous, around.next);
    put_ahead(boxes, parent, around.next, around.previous);
    let links = links_of(boxes, child);
    set_links(
        boxes,
        child,
        Links {
            parent: None,
            previous: None,
            next: None,
            ..links
        },
    );
}

/// Takes a box out of its parent, which is marked with all above it.
pub(crate) fn detach_at<T>(boxes: &mut Slab<Entry<T>>, key: usize)
    requires sound { IsSound boxes.old.slots }
    requires attached { IsSome (parent_at boxes.old.slots key) }
    ensures detaches { (parent : ℕ) → parent_at boxes.old.slots key ≡ Some parent → Detaches boxes.old boxes.new parent key }
    ensures sound { IsSound boxes.new.slots }
{
    if let Some(parent) = links_of(boxes, key).parent {
        mark_up(boxes, parent);
        unlink(boxes, parent, key);
    }
}
