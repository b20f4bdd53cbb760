//! The climb from a box to the top, which marks. It goes all the way each time: a box can be made up to date while one
//! below it is still marked. The first pass remembers where it was and so ends on any links, the second forgets that.

ghost use Rattle.std.specs.Prelude.{◌≡◌, ℕ};
ghost use Rattle.slab.specs.Slab.{ContainsKey};
ghost use Rattle.box_arena.specs.At.{IsSound, links_at, mark_at};
ghost use Rattle.box_arena.specs.Arena.{IsMarkedUp};
ghost use Rattle.box_arena.specs.Climb.{Risen};
ghost use Rattle.box_arena.specs.Links.{IsLinked};
ghost use Rattle.box_arena.specs.Marks.{IsStill, MarksUp, is_marked};
ghost use Rattle.box_arena.specs.Write.{OnlyMarks};

use crate::entry::{Entry, Mark};
use crate::write::{links_of, mark_of, set_mark};
use slab::Slab;

/// Marks a box and every box above it.
pub(crate) fn mark_up<T>(boxes: &mut Slab<Entry<T>>, key: usize)
    requires live { ContainsKey boxes.old key }
    requires sound { IsSound boxes.old.slots }
    ensures marked { IsMarkedUp boxes.old.slots boxes.new.slots key }
    ensures still { IsStill (mark_at boxes.new.slots) }
    ensures only { OnlyMarks boxes.old boxes.new }
{
    rise(boxes, key);
    clear(boxes, key);
}

// Marks each box from this one to the top, and remembers that it was there.
fn rise<T>(boxes: &mut Slab<Entry<T>>, key: usize)
    requires live { ContainsKey boxes.old key }
    requires sound { IsSound boxes.old.slots }
    ensures risen { Risen (links_at boxes.old.slots) (mark_at boxes.old.slots) (mark_at boxes.new.slots) key }
    ensures only { OnlyMarks boxes.old boxes.new }
{
    let mut current = Some(key);
    while let Some(at) = current {
        let mark = mark_of(boxes, at);
        if mark.seen {
            break;
        }
        set_mark(
            boxes,
            at,
            Mark {
                marked: true,
                seen: true,
            },
        );
        current = links_of(boxes, at).parent;
    }
}

// Forgets of each box from this one to the top that it was seen.
fn clear<T>(boxes: &mut Slab<Entry<T>>, key: usize)
    requires live { ContainsKey boxes.old key }
    requires linked { IsLinked (links_at boxes.old.slots) }
    requires risen { Risen (links_at boxes.old.slots) (mark_at boxes.old.slots) (mark_at boxes.old.slots) key }
    ensures still { IsStill (mark_at boxes.new.slots) }
    ensures marked { (k : ℕ) → is_marked (mark_at boxes.new.slots k) ≡ is_marked (mark_at boxes.old.slots k) }
    ensures only { OnlyMarks boxes.old boxes.new }
{
    let mut current = Some(key);
    while let Some(at) = current {
        let mark = mark_of(boxes, at);
        if !mark.seen {
            break;
        }
        set_mark(
            boxes,
            at,
            Mark {
                marked: mark.marked,
                seen: false,
            },
        );
        current = links_of(boxes, at).parent;
    }
}
