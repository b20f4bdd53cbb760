//! What is kept of a document's boxes between two pages: after a text got other letters the boxes of the next page, in which it is set;
//! after another edit of the tree those of the document before it, from which the next page takes what still holds.

ghost use Rattle.std.specs.Prelude.{◌≡◌, ◌↔◌, ℕ, false, IfSome, IsTrue, List, OnOk, Option, Some};
ghost use Rattle.std.specs.String.{string_bytes};
ghost use Rattle.dom_store.specs.Edited.{edit_of};
ghost use Rattle.dom_store.specs.Edits.{after, set_text};
ghost use Rattle.dom_store.specs.Exact as tree;
ghost use Rattle.dom_store.specs.State.{State, state_of};
ghost use Rattle.face_api.specs.Table.{Table};
ghost use Rattle.wm_units.specs.declared.view.View.{View};
ghost use Rattle.style_types.specs.Tree.{Nodes};
ghost use Rattle.box_gen.specs.Boxes.{root_boxes};
ghost use Rattle.box_gen.specs.Tree.{Boxes};
ghost use Rattle.box_arena.specs.Planting.{IsBare};
ghost use Rattle.box_arena.specs.Reusing.{IsTree};
ghost use Rattle.session.specs.declared.keeping.KeptBoxes.TheVariants.{Current, Former};
ghost use Rattle.edits.specs.Exact.{exact_of};
ghost use Rattle.session.specs.Found.{GoOn, KeepsAll};
ghost use Rattle.session.specs.Setting.{CanSet, CanSetBy, CanSetExactly, GetsAlike, SetsAlike, StepSetsAlike};
ghost use Rattle.session.specs.State.{AreKept, AreReady, AreRooted, IsFormer};

use crate::laws::{boxes_within_limits_fit, documents_within_limits_fit};
use crate::planting::Rooted;
use box_arena::laws::arenas_are_sound;
use box_arena::reuse;
use box_gen::{BoxNode, is_blank};
use dom_store::{Document, ExactEdit as ExactTreeEdit, NodeKind};
use edits::{ExactEdit, TreeEdit};
use letters::SharedText;
use relayout::laws::{what_is_reused_is_found, what_is_reused_is_right};
use std::alloc::{AllocError, Global};
use text_boxes::laws::{texts_are_set_in_arenas, texts_are_set_in_pages};
use text_boxes::set_text;

/// How many texts are set in boxes before they are laid out again, at most: each of them goes through all boxes.
const MOST_SETS: u32 = 64;

/// The boxes of a document as it is, or those of an earlier one, before some edits of its tree.
#[derive(Drop)]
pub(crate) enum KeptBoxes {
    Current(Rooted),
    Former(Rooted),
}

/// Whether an edit gives a text letters that are white space alone exactly where its old ones are.
pub(crate) fn sets_alike(document: &Document, edit: &TreeEdit) -> bool
    ensures { IsTrue result → SetsAlike (state_of document.now) (edit_of edit.now) }
{
    match edit {
        TreeEdit::Text { node, text } => gets_alike(document, *node, text),
        TreeEdit::Style { .. }
        | TreeEdit::Class { .. }
        | TreeEdit::Insert { .. }
        | TreeEdit::Remove { .. }
        | TreeEdit::Move { .. } => false,
    }
}

/// Whether an exact edit does.
pub(crate) fn sets_exactly_alike(document: &Document, edit: &ExactEdit) -> bool
    ensures { IsTrue result → StepSetsAlike (state_of document.now) (exact_of edit.now) }
{
    match edit {
        ExactEdit::Tree(ExactTreeEdit::Text { node, text }) => gets_alike(document, *node, text),
        ExactEdit::Tree(_) | ExactEdit::PutRules { .. } | ExactEdit::TakeRules { .. } => false,
    }
}

// Whether the text of this node gets such letters.
fn gets_alike(document: &Document, node: u32, text: &SharedText) -> bool
    ensures { IsTrue result → GetsAlike (state_of document.now) node (string_bytes text.now) }
{
    match document.node(node) {
        Some(own) => match &own.kind {
            NodeKind::Text { text: was } => is_blank(text) == is_blank(was),
            NodeKind::Element { .. } => false,
        },
        None => false,
    }
}

/// What is kept of boxes after an edit of the tree, which gives a text such letters where `alike`. Then the text is set in the boxes that
/// stand, where one of them alone holds it.
pub(crate) fn edited_boxes(
    alloc: Global,
    boxes: Option<KeptBoxes>,
    edit: &TreeEdit,
    alike: bool,
) -> Option<KeptBoxes>
    requires rooted { IfSome boxes AreRooted }
    ensures { GoOn (λ state. IsTrue alike → CanSetBy state (edit_of edit.now)) (λ state. after state (edit_of edit.now)) boxes result }
{
    match edit {
        TreeEdit::Text { node, text } if alike => with_text(alloc, boxes, *node, text),
        TreeEdit::Text { .. }
        | TreeEdit::Style { .. }
        | TreeEdit::Class { .. }
        | TreeEdit::Insert { .. }
        | TreeEdit::Remove { .. }
        | TreeEdit::Move { .. } => outdated(boxes),
    }
}

/// What is kept of boxes after an exact edit of the tree, which gives a text such letters where `alike`.
pub(crate) fn exactly_edited_boxes(
    alloc: Global,
    boxes: Option<KeptBoxes>,
    edit: &ExactTreeEdit,
    alike: bool,
) -> Option<KeptBoxes>
    requires rooted { IfSome boxes AreRooted }
    ensures { GoOn (λ state. IsTrue alike → CanSetExactly state (tree.exact_of edit.now)) (λ state. tree.exactly state (tree.exact_of edit.now)) boxes result }
{
    match edit {
        ExactTreeEdit::Text { node, text } if alike => with_text(alloc, boxes, *node, text),
        ExactTreeEdit::Text { .. }
        | ExactTreeEdit::Style { .. }
        | ExactTreeEdit::Class { .. }
        | ExactTreeEdit::Move { .. }
        | ExactTreeEdit::Take { .. }
        | ExactTreeEdit::Restore { .. } => outdated(boxes),
    }
}

// What is kept of boxes after the text of this node got such letters.
fn with_text(
    alloc: Global,
    boxes: Option<KeptBoxes>,
    node: u32,
    text: &SharedText,
) -> Option<KeptBoxes>
    requires rooted { IfSome boxes AreRooted }
    ensures { GoOn (λ state. CanSet state node (string_bytes text.now)) (λ state. after state (set_text node (string_bytes text.now))) boxes result }
{
    match boxes {
        Some(KeptBoxes::Current(made)) => Some(set_or_outdated(alloc, made, node, text)),
        Some(KeptBoxes::Former(made)) => Some(KeptBoxes::Former(made)),
        None => None,
    }
}

// The boxes with the text of this node set in them, or those that stood, where it can't be set.
fn set_or_outdated(alloc: Global, made: Rooted, node: u32, text: &SharedText) -> KeptBoxes
    requires rooted { IsTree made.arena.slots made.root }
    ensures { GoOn (λ state. CanSet state node (string_bytes text.now)) (λ state. after state (set_text node (string_bytes text.now))) (Some (Current made)) (Some result) }
{
    let mut made = made;
    if set_in(alloc, &mut made, node, text) {
        KeptBoxes::Current(made)
    } else {
        KeptBoxes::Former(made)
    }
}

// Sets the text of this node in boxes that stand. `false`, with nothing changed, where it can't be, where memory runs out, or where so
// many were set.
fn set_in(alloc: Global, made: &mut Rooted, node: u32, text: &SharedText) -> bool
    requires rooted { IsTree made.old.arena.slots made.old.root }
    ensures not { result ≡ false → made.new ≡ made.old }
    ensures set { IsTrue result → GoOn (λ state. CanSet state node (string_bytes text.now)) (λ state. after state (set_text node (string_bytes text.now))) (Some (Current made.old)) (Some (Current made.new)) }
{
    texts_are_set_in_arenas();
    texts_are_set_in_pages();
    documents_within_limits_fit();
    boxes_within_limits_fit();
    if made.sets >= MOST_SETS {
        return false;
    }
    arenas_are_sound(&made.arena);
    match set_text(alloc, &mut made.arena, made.root, node, text) {
        Ok(true) => {
            arenas_are_sound(&made.arena);
            made.sets += 1;
            true
        }
        Ok(false) | Err(_) => false,
    }
}

/// What is kept of boxes after an edit of the tree that leads to others.
pub(crate) fn outdated(boxes: Option<KeptBoxes>) -> Option<KeptBoxes>
    ensures keeps { (page : Boxes) → KeepsAll boxes result page }
    ensures kept { (faces : List (Option Table)) (view : View) (nodes edited : Nodes) → IfSome boxes (AreKept faces view nodes) → IfSome result (AreKept faces view edited) }
{
    match boxes {
        Some(KeptBoxes::Current(made)) => Some(KeptBoxes::Former(made)),
        Some(KeptBoxes::Former(made)) => Some(KeptBoxes::Former(made)),
        None => None,
    }
}

/// Hands what is kept of boxes that stood on an earlier page to those of the page that is, where these stand as they did: all of it that is
/// found for this page. Nothing goes over where the roots' modes differ, since then the lines of the whole page do.
pub(crate) fn reuse_former(
    alloc: Global,
    former: Rooted,
    made: &mut Rooted,
) -> Result<(), AllocError>
    requires former { IsTree former.arena.slots former.root }
    requires tree { IsTree made.old.arena.slots made.old.root }
    requires bare { (key : ℕ) → IsBare made.old.arena.slots key }
    ensures ready { OnOk result ((faces : List (Option Table)) (view : View) (nodes : Nodes) → IsFormer faces view former → AreReady faces view nodes made.old → AreReady faces view nodes made.new) }
    ensures keeps { OnOk result ((faces : List (Option Table)) (view : View) (nodes : Nodes) → IsFormer faces view former → AreReady faces view nodes made.old → KeepsAll (Some (Former former)) (Some (Current made.new)) (root_boxes nodes)) }
{
    what_is_reused_is_right();
    what_is_reused_is_found();
    arenas_are_sound(&former.arena);
    arenas_are_sound(&made.arena);
    let mut former = former;
    if !have_one_mode(former.arena.node(former.root), made.arena.node(made.root)) {
        return Ok(());
    }
    reuse(alloc, &mut former.arena, &mut made.arena, made.root)?;
    Ok(())
}

fn have_one_mode(one: &BoxNode, other: &BoxNode) -> bool
    ensures { IsTrue result ↔ one.now.style.mode ≡ other.now.style.mode }
{
    one.style.mode == other.style.mode
}
