//! The boxes of a document (docs/PROFILE/boxes.md).

ghost use Rattle.std.specs.Prelude.{◌≡◌, ◌≤◌, ℕ, IfErr, IfOk, IfSome, None};
ghost use Rattle.dom_store.specs.Edited.{edit_of};
ghost use Rattle.dom_store.specs.State.{IsRooted, IsSaidState, State, state_of};
ghost use Rattle.cascade.specs.Index.{index_rules};
ghost use Rattle.css_types.specs.Rule.{rulings_of};
ghost use Rattle.cascade.specs.Winners.{AreSaidRules};
ghost use Rattle.style_tree.specs.Styling.{AreBounded, styled_document};
ghost use Rattle.dom_store.specs.Opening.{greatest_count};
ghost use Rattle.dom_store.specs.Standing.{live_count};
ghost use Rattle.tree_laws.specs.Weight.{bytes, total};
ghost use Rattle.tree_laws.specs.Wholeness.{IsWhole};
ghost use Rattle.box_gen.specs.Boxes.{root_boxes};
ghost use Rattle.box_arena.specs.At.{parent_at};
ghost use Rattle.box_arena.specs.Boxes.{Stands};
ghost use Rattle.box_arena.specs.Planting.{IsBare};
ghost use Rattle.box_arena.specs.Reusing.{AreNamedOnce};
ghost use Rattle.box_limits.specs.Limits.{Answers, IsEditedFrom};
ghost use Rattle.session.specs.Editing.{CanBeTakenBack};
ghost use Rattle.session.specs.Kept.{ArePositions};
ghost use Rattle.session.specs.Limits.{CanBeLaidOut, IsWithin};
ghost use Rattle.session.specs.Opening.{MakesBoxes};

use crate::error::OpenError;
use crate::generated::{Generated, generate};
use crate::indexed::{made_index, make_index};
use crate::laws::{boxes_within_limits_fit, documents_within_limits_fit};
use crate::planting::{Rooted, grown};
use box_gen::check_boxes;
use box_limits::laws::{documents_are_judged_by_lines, edits_are_judged_by_their_parts};
use box_limits::{LimitError, check_edited};
use cascade::RuleIndex;
use css_types::Rule;
use dom_store::Document;
use dom_store::laws::accepted_edits_keep_roots;
use edit_scope::laws::pages_name_boxes_once;
use edits::TreeEdit;
use std::alloc::{AllocError, Global};
use style_tree::styled;
use tree_laws::laws::{
    accepted_edits_keep_documents_reached, accepted_edits_keep_documents_whole,
    children_have_parents,
};

/// The boxes of a document by these rules, where they are within their limit, and its positions.
pub(crate) fn boxes_in(
    alloc: Global,
    document: &Document,
    rules: &RuleIndex,
) -> Result<Generated, OpenError>
    requires rooted { IsRooted (state_of document.now) }
    requires rules { AreSaidRules (index_rules rules.now) }
    requires own { IsSaidState (state_of document.now) }
    ensures makes { MakesBoxes (styled_document (index_rules rules.now) (state_of document.now)) result }
    ensures bounded { IfOk result (λ _. AreBounded (styled_document (index_rules rules.now) (state_of document.now))) }
{
    let root = styled(alloc, document, rules)?;
    check_boxes(&root)?;
    let made = generate(alloc, &root)?;
    Ok(made)
}

/// Whether the boxes of a document can stand after this edit of its tree, where they could before it. After a removal, which can't be
/// taken back, they can, and after a text was set: then the index of the rules isn't asked.
pub(crate) fn check_boxes_after(
    alloc: Global,
    document: &Document,
    rules: &[Rule],
    index: &mut Option<RuleIndex>,
    edit: &TreeEdit,
) -> Result<(), LimitError>
    requires rules { AreSaidRules (rulings_of rules.now) }
    requires own { IsSaidState (state_of document.now) }
    requires index { IfSome index.old (λ index. index_rules index ≡ rulings_of rules.now) }
    requires edited { (state : State) × IsEditedFrom (rulings_of rules.now) (edit_of edit.now) (state_of document.now) state }
    ensures answers { Answers (rulings_of rules.now) (state_of document.now) result }
    ensures back { IfErr result (λ _. CanBeTakenBack (edit_of edit.now)) }
    ensures index { IfSome index.new (λ index. index_rules index ≡ rulings_of rules.now) }
{
    documents_are_judged_by_lines();
    edits_are_judged_by_their_parts();
    accepted_edits_keep_roots();
    accepted_edits_keep_documents_whole();
    accepted_edits_keep_documents_reached();
    children_have_parents();
    match edit {
        TreeEdit::Remove { .. } => Ok(()),
        TreeEdit::Text { .. } => Ok(()),
        TreeEdit::Style { .. }
        | TreeEdit::Class { .. }
        | TreeEdit::Insert { .. }
        | TreeEdit::Move { .. } => {
            make_index(alloc, index, rules)?;
            check_edited(alloc, document, made_index(index), edit)?;
            Ok(())
        }
    }
}

/// The boxes of a document, in an arena of their own in which nothing is kept, with its positions.
pub(crate) fn made_boxes(
    alloc: Global,
    document: &Document,
    rules: &RuleIndex,
) -> Result<Rooted, AllocError>
    requires rooted { IsRooted (state_of document.now) }
    requires rules { AreSaidRules (index_rules rules.now) }
    requires own { IsSaidState (state_of document.now) }
    requires whole { IsWhole (state_of document.now) }
    requires few { live_count (state_of document.now) ≤ greatest_count }
    requires short { total bytes (state_of document.now) ≤ 1048576 }
    ensures stands { IfOk result (λ made. Stands made.arena.slots made.root (root_boxes (styled_document (index_rules rules.now) (state_of document.now)))) }
    ensures free { IfOk result (λ made. parent_at made.arena.slots made.root ≡ None) }
    ensures fit { IfOk result (λ _. CanBeLaidOut (root_boxes (styled_document (index_rules rules.now) (state_of document.now)))) }
    ensures named { IfOk result (λ made. AreNamedOnce made.arena.slots) }
    ensures bare { IfOk result (λ made. (key : ℕ) → IsBare made.arena.slots key) }
    ensures inside { IfOk result (λ _. IsWithin (styled_document (index_rules rules.now) (state_of document.now))) }
    ensures positions { IfOk result (λ made. ArePositions made.positions (styled_document (index_rules rules.now) (state_of document.now))) }
{
    documents_within_limits_fit();
    boxes_within_limits_fit();
    pages_name_boxes_once();
    let root = styled(alloc, document, rules)?;
    let parts = generate(alloc, &root)?;
    let made = grown(alloc, parts)?;
    Ok(made)
}
