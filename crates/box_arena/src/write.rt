//! Single reads and writes of the boxes of an arena.

ghost use Rattle.std.specs.Prelude.{◌≡◌, ◌≤◌, ◌<◌, ℕ, [], Some, None, length, option_map, OnOk, OnErr};
ghost use Rattle.slab.specs.Slab.{ContainsKey, get, with_value};
ghost use Rattle.box_arena.specs.At.{held_at, links_at, mark_at, text_at};
ghost use Rattle.box_arena.specs.Free.{Removes};
ghost use Rattle.box_arena.specs.Write.{ForgetsBelow, ReplacesResults, TakesResults, WritesHeld, WritesKept, WritesLinks, WritesMark};

use crate::entry::{Entry, Links, Mark};
use crate::results::Results;
use box_gen::BoxNode;
use fragment_types::{Constraint, Fragment};
use slab::Slab;
use std::alloc::{AllocError, Global};

/// A box's links.
pub(crate) fn links_of<T>(boxes: &Slab<Entry<T>>, key: usize) -> Links
    requires { ContainsKey boxes.now key }
    ensures { links_at boxes.now.slots key ≡ Some result }
{
    boxes[key].links
}

/// A box's mark.
pub(crate) fn mark_of<T>(boxes: &Slab<Entry<T>>, key: usize) -> Mark
    requires { ContainsKey boxes.now key }
    ensures { mark_at boxes.now.slots key ≡ Some result }
{
    boxes[key].mark
}

/// Puts a box's links anew.
#[tactic(auto, using(crate::proofs::Writes::writes_links))]
pub(crate) fn set_links<T>(boxes: &mut Slab<Entry<T>>, key: usize, links: Links)
    requires { ContainsKey boxes.old key }
    ensures { WritesLinks boxes.old boxes.new key links }
{
    let entry = &mut boxes[key];
    entry.links = links;
}

/// Puts a box's mark anew.
#[tactic(auto, using(crate::proofs::Writes::writes_mark))]
pub(crate) fn set_mark<T>(boxes: &mut Slab<Entry<T>>, key: usize, mark: Mark)
    requires { ContainsKey boxes.old key }
    ensures { WritesMark boxes.old boxes.new key mark }
{
    let entry = &mut boxes[key];
    entry.mark = mark;
}

/// Frees a key.
#[tactic(auto, using(crate::proofs::Writes::removes))]
pub(crate) fn remove_at<T: Drop>(boxes: &mut Slab<Entry<T>>, key: usize)
    requires { ContainsKey boxes.old key }
    ensures { Removes boxes.old boxes.new key }
{
    let _ = boxes.remove(key);
}

/// Keeps a fragment for a box.
pub(crate) fn keep_at<T>(
    boxes: &mut Slab<Entry<T>>,
    alloc: Global,
    key: usize,
    c: Constraint,
    fragment: Fragment,
) -> Result<(), AllocError>
    requires { ContainsKey boxes.old key }
    ensures ok { OnOk result (WritesKept boxes.old boxes.new key c fragment) }
    ensures err { OnErr result (boxes.new ≡ boxes.old) }
{
    let entry = &mut boxes[key];
    entry.keep(alloc, c, fragment)?;
    Ok(())
}

/// Keeps a text for a box.
#[tactic(auto, using(crate::proofs::Writes::writes_held))]
pub(crate) fn put_text<T: Drop>(boxes: &mut Slab<Entry<T>>, key: usize, text: T)
    requires { ContainsKey boxes.old key }
    ensures { (held : _) → held_at boxes.old.slots key ≡ Some held → WritesHeld boxes.old boxes.new key (record held { text = Some text }) }
{
    let entry = &mut boxes[key];
    entry.held.text = Some(text);
}

/// Drops a box's text.
#[tactic(auto, using(crate::proofs::Writes::writes_held))]
pub(crate) fn drop_text<T: Drop>(boxes: &mut Slab<Entry<T>>, key: usize)
    requires { ContainsKey boxes.old key }
    ensures { (held : _) → held_at boxes.old.slots key ≡ Some held → WritesHeld boxes.old boxes.new key (record held { text = None }) }
{
    let entry = &mut boxes[key];
    entry.held.text = None;
}

/// Takes the text of a box.
#[tactic(auto, using(crate::proofs::Writes::writes_held))]
pub(crate) fn take_text_at<T: Drop>(boxes: &mut Slab<Entry<T>>, key: usize) -> Option<T>
    requires { ContainsKey boxes.old key }
    ensures text { result ≡ text_at boxes.old.slots key }
    ensures rest { (held : _) → held_at boxes.old.slots key ≡ Some held → WritesHeld boxes.old boxes.new key (record held { text = None }) }
{
    let entry = &mut boxes[key];
    entry.held.text.take()
}

/// Takes what is kept for a box, where it isn't marked; then nothing is kept for it.
pub(crate) fn take_results_at<T>(boxes: &mut Slab<Entry<T>>, alloc: Global, key: usize) -> Results
    requires { ContainsKey boxes.old key }
    ensures taken { TakesResults boxes.old boxes.new key result }
{
    let entry = &mut boxes[key];
    entry.take_results(alloc)
}

/// Puts results in the place of all that is kept for a box, which is marked no more.
pub(crate) fn put_results_at<T>(boxes: &mut Slab<Entry<T>>, key: usize, results: Results)
    requires { ContainsKey boxes.old key }
    ensures { ReplacesResults boxes.old boxes.new key results }
{
    let entry = &mut boxes[key];
    entry.put_results(results);
}

/// Puts a box anew and drops its text; gives the old one back.
#[tactic(auto, using(crate::proofs::Writes::writes_held))]
pub(crate) fn put_node<T: Drop>(boxes: &mut Slab<Entry<T>>, key: usize, node: BoxNode) -> BoxNode
    requires { ContainsKey boxes.old key }
    ensures old { option_map (λ held. held.node) (held_at boxes.old.slots key) ≡ Some result }
    ensures new { (held : _) → held_at boxes.old.slots key ≡ Some held → WritesHeld boxes.old boxes.new key (record held { node = node; text = None }) }
{
    let entry = &mut boxes[key];
    entry.held.replace_node(node)
}

// Drops all that is kept for a box.
#[tactic(auto, using(crate::proofs::Writes::writes_held))]
fn forget_at<T: Drop>(boxes: &mut Slab<Entry<T>>, key: usize)
    requires { ContainsKey boxes.old key }
    ensures { (held : _) → held_at boxes.old.slots key ≡ Some held → WritesHeld boxes.old boxes.new key (record held { text = None; results = [] }) }
{
    let entry = &mut boxes[key];
    entry.held.text = None;
    entry.held.results.clear();
}

/// Drops all that is kept for the boxes with keys below this one.
pub(crate) fn forget_below<T: Drop>(boxes: &mut Slab<Entry<T>>, end: usize)
    ensures { ForgetsBelow boxes.old boxes.new end }
{
    for key in 0..end {
        if boxes.contains(key) {
            forget_at(boxes, key);
        }
    }
}
