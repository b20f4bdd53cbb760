//! A document that is open: its nodes and styles, its faces, and its boxes with what is kept of them.

ghost use Rattle.std.specs.Prelude.{◌≡◌, ◌-◌, ◌≤◌, ◌^◌, ℕ, IfErr, IfOk, IfSome, None, Some, length, map};
ghost use Rattle.std.specs.List.{All};
ghost use Rattle.face_api.specs.Faces.{faces_of};
ghost use Rattle.css_types.specs.Rule.{rulings_of};
ghost use Rattle.wm_units.specs.View.{IsView};
ghost use Rattle.html_read.specs.Shape.{IsInDocumentOrder, IsShaped, text_bytes};
ghost use Rattle.html_read.specs.Values.{nodes_of};
ghost use Rattle.dom_store.specs.State.{AreSaid, state_of};
ghost use Rattle.tree_laws.specs.Weight.{bytes, total};
ghost use Rattle.cascade.specs.Winners.{AreSaidRules};
ghost use Rattle.box_arena.specs.Planting.{IsBare};
ghost use Rattle.relayout.specs.Named.{ArrangesOwed, FindsAll, PreparesOwed};
ghost use Rattle.place_map.specs.Near.{AreNearParts};
ghost use Rattle.place_map.specs.Placed.{placed_of};
ghost use Rattle.rel_shift.specs.Bounds.{AreSized};
ghost use Rattle.rel_shift.specs.Laws.{ArePlacesWithin};
ghost use Rattle.rel_shift.specs.Positions.{positions_of};
ghost use Rattle.session.specs.declared.keeping.KeptBoxes.TheVariants.{Current};
ghost use Rattle.session.specs.Found.{ArrangesFor, HasAll, KeepsAll, PreparesFor, page_boxes_in};
ghost use Rattle.session.specs.State.{AreReady, IsSound, IsUnedited, Opens, flow_page_in, page_in, styled_in};

use crate::boxes::{boxes_in, made_boxes};
use crate::error::OpenError;
use crate::indexed::{listed_positions, made_index, make_index};
use crate::keeping::{KeptBoxes, reuse_former};
use crate::laws::{
    boxes_within_limits_fit, documents_within_limits_fit, what_does_not_spread_is_near,
};
use crate::planting::{Rooted, grown};
use crate::shifted::shifted;
use crate::stored::stored;
use box_arena::laws::arenas_are_sound;
use cascade::RuleIndex;
use css_types::{Rules, Styled, copy_of_rules};
use dom_store::Document;
use edit_scope::laws::{pages_name_boxes_once, texts_of_opened_documents_are_leaves};
use face_api::{Face, Faces};
use html_read::ReadDocument;
use place_map::{Placed, place};
use rel_shift::laws::{pages_stay_without_insets, positions_are_bounded, sizes_of_boxes_suffice};
use rel_shift::positions;
use relayout::laws::{
    contents_have_sizes, counts_are_by_name, what_is_not_kept_is_right, what_is_reused_is_found,
};
use relayout::relayout;
use std::alloc::{AllocError, Global};
use std::sync::ledger::Ledger;
use style_tree::styled;
use style_types::Positions;
use tree_laws::laws::{
    live_counts_are_totals, opened_documents_are_held, opened_documents_are_reached,
    opened_documents_are_whole,
};
use undo_log::UndoLog;
use undo_log::laws::logs_stand_for_states;
use wm_units::{Steps, View};

/// A document that is open in a view, and ready to be shown.
#[derive(Drop)]
pub struct Session {
    pub(crate) alloc: Global,
    pub(crate) document: Document,
    /// The author's rules.
    pub(crate) rules: Rules,
    /// Their index; none where they changed since one was asked.
    pub(crate) index: Option<RuleIndex>,
    pub(crate) faces: Faces,
    /// The sizes of the view, told in the root's mode.
    pub(crate) view: View,
    /// The boxes, with what is kept of them and the positions of the nodes; none where nothing is kept.
    pub(crate) boxes: Option<KeptBoxes>,
    /// The steps of its edits.
    pub(crate) log: UndoLog,
}

impl Session {
    /// Opens a document that was read, with its styles, its faces and the sizes of its view in units of 1/64 px. Refused are more
    /// than 65,536 nodes, nodes deeper than 64, and more than six boxes on a line of ancestors that are orthogonal to their
    /// containing blocks, in this order, each with the least number of such a node. Its texts together hold at most 1,048,576
    /// bytes. It has no history yet.
    pub fn open(
        alloc: Global,
        read: &ReadDocument,
        styled: &Styled,
        faces: Faces,
        view: View,
    ) -> Result<Session, OpenError>
        requires shaped { IsShaped (nodes_of read.now.nodes.items) }
        requires ordered { IsInDocumentOrder (nodes_of read.now.nodes.items) }
        requires bytes { text_bytes (nodes_of read.now.nodes.items) ≤ 1048576 }
        requires each { length styled.now.styles.items ≡ length read.now.nodes.items }
        requires rules { AreSaidRules (rulings_of styled.now.rules.items) }
        requires own { All (λ own. AreSaid own.items) styled.now.styles.items }
        requires view { IsView view }
        ensures opens { Opens (nodes_of read.now.nodes.items) (map (λ own. own.items) styled.now.styles.items) (rulings_of styled.now.rules.items) result }
        ensures bytes { IfOk result (λ session. total bytes (state_of session.document) ≡ text_bytes (nodes_of read.now.nodes.items)) }
        ensures faces { IfOk result (λ session. session.faces ≡ faces) }
        ensures view { IfOk result (λ session. session.view ≡ view) }
        ensures unedited { IfOk result (λ session. IsUnedited (faces_of ⟦<dyn Face as Face>⟧ session.faces) session) }
        ensures sound { IfOk result (λ session. IsSound (faces_of ⟦<dyn Face as Face>⟧ session.faces) session) }
    {
        opened_documents_are_whole();
        opened_documents_are_reached();
        opened_documents_are_held();
        logs_stand_for_states();
        live_counts_are_totals();
        documents_within_limits_fit();
        boxes_within_limits_fit();
        what_is_not_kept_is_right();
        what_is_reused_is_found();
        pages_name_boxes_once();
        texts_of_opened_documents_are_leaves();
        let document = stored(alloc, read, styled)?;
        let rules = copy_of_rules(alloc, &styled.rules)?;
        let index = RuleIndex::new(alloc, &rules)?;
        let boxes = boxes_in(alloc, &document, &index)?;
        let grown = grown(alloc, boxes)?;
        let log = UndoLog::new(alloc)?;
        Ok(Session {
            alloc,
            document,
            rules,
            index: Some(index),
            faces,
            view,
            boxes: Some(KeptBoxes::Current(grown)),
            log,
        })
    }

    /// The flow of the document as it is now, carried to the page, where no fragment is shifted. Boxes are made where there are none;
    /// what is kept of them is used, and all that is laid out is kept. No coordinate of the page is further than 2^60 from 0, and no
    /// fragment stands further than 2^60 - 2^49 from the page's left and top edges. Where memory runs out the boxes are dropped, and
    /// the page can be asked for again.
    pub fn show<L: Ledger, M: Ledger>(
        &mut self,
        prepared: &mut Steps<L>,
        arranged: &mut Steps<M>,
    ) -> Result<Placed, AllocError>
        requires sound { IsSound (faces_of ⟦<dyn Face as Face>⟧ self.old.faces) self.old }
        ensures page { IfOk result (λ placed. placed_of placed ≡ flow_page_in (faces_of ⟦<dyn Face as Face>⟧ self.old.faces) self.old) }
        ensures near { IfOk result (λ placed. AreNearParts (placed_of placed).parts) }
        ensures within { IfOk result (λ placed. ArePlacesWithin (2 ^ 60 - 2 ^ 49) (placed_of placed).parts) }
        ensures rest { self.new ≡ record self.old { index = self.new.index; boxes = self.new.boxes } }
        ensures sound { IsSound (faces_of ⟦<dyn Face as Face>⟧ self.new.faces) self.new }
        ensures prepares { PreparesFor self.old prepared.old prepared.new }
        ensures arranges { ArrangesFor (faces_of ⟦<dyn Face as Face>⟧ self.old.faces) self.old arranged.old arranged.new }
        ensures found { IfOk result (λ _. HasAll (faces_of ⟦<dyn Face as Face>⟧ self.new.faces) self.new) }
        ensures dropped { IfErr result (λ _. self.new.boxes ≡ None) }
    {
        let mut made = self.take_boxes()?;
        let placed = self.flow_page(&mut made, prepared, arranged)?;
        self.boxes = Some(KeptBoxes::Current(made));
        Ok(placed)
    }

    /// The page of the document as it is now: that of `show`, with each fragment shifted as its node is (`shift` of rel_shift). The
    /// positions of the nodes are kept with the boxes; where no element is relatively positioned there are none, and the page is that
    /// of `show`. No coordinate of the page is further than 2^60 from 0. Where memory runs out the boxes are dropped, and the page can
    /// be asked for again.
    pub fn page<L: Ledger, M: Ledger>(
        &mut self,
        prepared: &mut Steps<L>,
        arranged: &mut Steps<M>,
    ) -> Result<Placed, AllocError>
        requires sound { IsSound (faces_of ⟦<dyn Face as Face>⟧ self.old.faces) self.old }
        ensures page { IfOk result (λ placed. placed_of placed ≡ page_in (faces_of ⟦<dyn Face as Face>⟧ self.old.faces) self.old) }
        ensures near { IfOk result (λ placed. AreNearParts (placed_of placed).parts) }
        ensures rest { self.new ≡ record self.old { index = self.new.index; boxes = self.new.boxes } }
        ensures sound { IsSound (faces_of ⟦<dyn Face as Face>⟧ self.new.faces) self.new }
        ensures prepares { PreparesFor self.old prepared.old prepared.new }
        ensures arranges { ArrangesFor (faces_of ⟦<dyn Face as Face>⟧ self.old.faces) self.old arranged.old arranged.new }
        ensures found { IfOk result (λ _. HasAll (faces_of ⟦<dyn Face as Face>⟧ self.new.faces) self.new) }
        ensures dropped { IfErr result (λ _. self.new.boxes ≡ None) }
    {
        positions_are_bounded();
        pages_stay_without_insets();
        let mut made = self.take_boxes()?;
        let placed = self.flow_page(&mut made, prepared, arranged)?;
        let page = shifted(self.alloc, placed, &made.positions)?;
        self.boxes = Some(KeptBoxes::Current(made));
        Ok(page)
    }

    /// The positions of the document as it is now: which of its nodes aren't hidden, and by what each is shifted. Copied where they
    /// are kept, else listed anew. Nothing changes.
    pub fn positions(&self) -> Result<Positions, AllocError>
        requires sound { IsSound (faces_of ⟦<dyn Face as Face>⟧ self.now.faces) self.now }
        ensures { IfOk result (λ made. made.items ≡ positions_of (styled_in self.now)) }
    {
        match self.kept_positions() {
            Some(kept) => {
                let copy = kept.clone()?;
                Ok(copy)
            }
            None => {
                let made = listed_positions(self.alloc, &self.document, &self.rules, &self.index)?;
                Ok(made)
            }
        }
    }

    // The positions that are kept; none where there are no boxes, and where no element is relatively positioned.
    fn kept_positions(&self) -> Option<&Positions>
        requires sound { IsSound (faces_of ⟦<dyn Face as Face>⟧ self.now.faces) self.now }
        ensures { IfSome result (λ kept. kept.now.items ≡ positions_of (styled_in self.now)) }
    {
        match &self.boxes {
            Some(KeptBoxes::Current(made)) => made.positions.as_ref(),
            Some(KeptBoxes::Former(_)) | None => None,
        }
    }

    // The flow of its document, carried to the page, from its boxes.
    fn flow_page<L: Ledger, M: Ledger>(
        &self,
        made: &mut Rooted,
        prepared: &mut Steps<L>,
        arranged: &mut Steps<M>,
    ) -> Result<Placed, AllocError>
        requires sound { IsSound (faces_of ⟦<dyn Face as Face>⟧ self.now.faces) self.now }
        requires ready { AreReady (faces_of ⟦<dyn Face as Face>⟧ self.now.faces) self.now.view (styled_in self.now) made.old }
        ensures page { IfOk result (λ placed. placed_of placed ≡ flow_page_in (faces_of ⟦<dyn Face as Face>⟧ self.now.faces) self.now) }
        ensures near { IfOk result (λ placed. AreNearParts (placed_of placed).parts) }
        ensures within { IfOk result (λ placed. ArePlacesWithin (2 ^ 60 - 2 ^ 49) (placed_of placed).parts) }
        ensures sized { IfOk result (λ placed. AreSized (placed_of placed)) }
        ensures ready { AreReady (faces_of ⟦<dyn Face as Face>⟧ self.now.faces) self.now.view (styled_in self.now) made.new }
        ensures prepares { PreparesOwed made.old.arena.slots made.old.root (page_boxes_in self.now) prepared.old prepared.new }
        ensures arranges { ArrangesOwed (faces_of ⟦<dyn Face as Face>⟧ self.now.faces) self.now.view made.old.arena.slots made.old.root (page_boxes_in self.now) arranged.old arranged.new }
        ensures found { IfOk result (λ _. FindsAll (faces_of ⟦<dyn Face as Face>⟧ self.now.faces) self.now.view made.new.arena.slots made.new.root (page_boxes_in self.now)) }
    {
        counts_are_by_name();
        what_does_not_spread_is_near();
        contents_have_sizes();
        sizes_of_boxes_suffice();
        arenas_are_sound(&made.arena);
        made.sets = 0;
        let root = relayout(
            self.alloc,
            &mut made.arena,
            made.root,
            self.view,
            &self.faces,
            prepared,
            arranged,
        )?;
        arenas_are_sound(&made.arena);
        let placed = place(self.alloc, &root, self.view)?;
        Ok(placed)
    }

    // Takes its boxes out. Where there are none they are made, and what was kept for its page is kept for them.
    fn take_boxes(&mut self) -> Result<Rooted, AllocError>
        requires sound { IsSound (faces_of ⟦<dyn Face as Face>⟧ self.old.faces) self.old }
        ensures rest { self.new ≡ record self.old { index = self.new.index; boxes = None } }
        ensures sound { IsSound (faces_of ⟦<dyn Face as Face>⟧ self.new.faces) self.new }
        ensures ready { IfOk result (λ made. AreReady (faces_of ⟦<dyn Face as Face>⟧ self.new.faces) self.new.view (styled_in self.new) made) }
        ensures keeps { IfOk result (λ made. KeepsAll self.old.boxes (Some (Current made)) (page_boxes_in self.old)) }
    {
        match self.boxes.take() {
            Some(KeptBoxes::Current(made)) => Ok(made),
            Some(KeptBoxes::Former(former)) => {
                let mut made = self.new_boxes()?;
                reuse_former(self.alloc, former, &mut made)?;
                Ok(made)
            }
            None => {
                let made = self.new_boxes()?;
                Ok(made)
            }
        }
    }

    // The boxes of its document, of which nothing is kept.
    fn new_boxes(&mut self) -> Result<Rooted, AllocError>
        requires sound { IsSound (faces_of ⟦<dyn Face as Face>⟧ self.old.faces) self.old }
        ensures rest { self.new ≡ record self.old { index = self.new.index } }
        ensures sound { IsSound (faces_of ⟦<dyn Face as Face>⟧ self.new.faces) self.new }
        ensures ready { IfOk result (λ made. AreReady (faces_of ⟦<dyn Face as Face>⟧ self.new.faces) self.new.view (styled_in self.new) made) }
        ensures bare { IfOk result (λ made. (key : ℕ) → IsBare made.arena.slots key) }
    {
        what_is_not_kept_is_right();
        what_is_reused_is_found();
        make_index(self.alloc, &mut self.index, &self.rules)?;
        let made = made_boxes(self.alloc, &self.document, made_index(&self.index))?;
        Ok(made)
    }
}
