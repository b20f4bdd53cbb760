//! Flow layout over an arena of boxes (CSS 2, 9.4). What is kept for a box and the sizes of its containing block is used, all else laid
//! out and kept. It goes down from a box to its children, twice where its inline size depends on them, and side by side without a
//! recursion.

ghost use Rattle.std.specs.Prelude.{◌≡◌, ◌+◌, ◌≤◌, IfOk, IfSome, OnErr, OnOk, option_map};
ghost use Rattle.face_api.specs.Faces.{faces_of};
ghost use Rattle.fragment_types.specs.Fragment.{piece_of};
ghost use Rattle.box_arena.specs.Arena.{Keeps};
ghost use Rattle.box_arena.specs.At.{kept_at, links_at};
ghost use Rattle.box_arena.specs.Links.{IsLinked};
ghost use Rattle.box_gen.specs.Tree.{content_of};
ghost use Rattle.relayout.specs.Counts.{HasSeen, RowCosts, RowDone, SeeingCosts, counted, texts_in};
ghost use Rattle.relayout.specs.Flowing.{CanFlow, CanFlowBox, IsBegun, IsSeen, IsSized};
ghost use Rattle.relayout.specs.Inline.{Outside};
ghost use Rattle.relayout.specs.Intrinsic.{IsTextOf};
ghost use Rattle.relayout.specs.Paragraph.{IsParagraphIn, IsReadyIn};
ghost use Rattle.relayout.specs.Row.{AreFlowed, HasBox, HasRow, IsFlowedAt, IsSteady, outside_of};

use crate::flow_box::FlowBox;
use crate::flowed::{LaidBox, LaidBoxes};
use crate::inside::{HeldParagraph, LaidInside};
use crate::row::{Page, Row, RowBox};
use crate::sizing::{InlineSize, Sizing};
use box_arena::{BoxArena, MOST_BOXES};
use box_gen::{BoxNode, Content};
use bumpalo::Bump;
use face_api::{Face, Faces};
use fragment_types::Fragment;
use para_prepare::Prepared;
use std::alloc::{AllocError, Global};
use std::sync::ledger::Ledger;
use wm_units::Steps;

/// What travels along: the arena of the boxes, room for what is made ready of a text, and the counters of texts that are prepared and
/// of contents that are arranged.
#[derive(Drop)]
pub(crate) struct Flow<'a, 's, 't, 'm, L: Ledger, M: Ledger> {
    pub(crate) arena: &'a mut BoxArena<Prepared>,
    pub(crate) scratch: &'s mut Bump,
    pub(crate) texts: &'t mut Steps<L>,
    pub(crate) arranged: &'m mut Steps<M>,
}

/// A box whose text is prepared: how it is sized, and the children whose contributions its inline size depends on.
#[derive(Clone, Copy, Debug, PartialEq, Eq)]
pub(crate) struct Begun {
    pub(crate) sizing: Sizing,
    pub(crate) contributing: Row,
}

/// A box whose inline size is known: that, and the children that are put in it.
#[derive(Clone, Copy, Debug, PartialEq, Eq)]
pub(crate) struct SizedBox {
    pub(crate) size: InlineSize,
    pub(crate) inside: Row,
}

// A copy of the fragment, which shares what is below it.
fn shared(fragment: &Fragment) -> Result<Fragment, AllocError>
    ensures { IfOk result (λ own. piece_of own ≡ piece_of fragment.now) }
{
    let own = fragment.moved_to(fragment.rect)?;
    Ok(own)
}

// How many boxes stand in a row.
fn count_of(arena: &BoxArena<Prepared>, row: &Row) -> usize
    requires { HasRow arena.now.slots row.now.from row.now.depth }
{
    let mut next = row.from;
    let mut count = 0;
    for _ in 0..MOST_BOXES {
        let Some(key) = next else {
            break;
        };
        next = arena.next(key);
        count += 1;
    }
    count
}

// The prepared text of the paragraph that a box holds, if it holds one.
fn text_of<L: Ledger>(
    alloc: Global,
    node: &BoxNode,
    faces: &Faces,
    scratch: &mut Bump,
    texts: &mut Steps<L>,
) -> Result<Option<Prepared>, AllocError>
    requires { IsParagraphIn (content_of node.now.content) }
    ensures most { (texts.old ≤ texts.new) × (texts.new ≤ texts.old + texts_in (content_of node.now.content)) }
    ensures text { IfOk result (λ text. IsTextOf (faces_of ⟦<dyn Face as Face>⟧ faces.now) node.now.style (content_of node.now.content) text) }
    ensures ready { IfOk result (λ text. IsReadyIn (content_of node.now.content) text) }
{
    match &node.content {
        Content::Inline(items) => {
            let style = &node.style;
            let own = HeldParagraph { style, items };
            let text = own.prepared(alloc, faces, scratch, texts)?;
            Ok(Some(text))
        }
        Content::Blocks => Ok(None),
    }
}

impl<L: Ledger, M: Ledger> Flow<'_, '_, '_, '_, L, M> {
    /// The boxes of a row, laid out.
    pub(crate) fn flow(
        &mut self,
        alloc: Global,
        page: Page,
        row: &Row,
    ) -> Result<LaidBoxes, AllocError>
        requires can { CanFlow (outside_of ⟦<dyn Face as Face>⟧ page) self.old.arena.now.slots row.now }
        ensures arena { self.new.arena.ghost_name ≡ self.old.arena.ghost_name }
        ensures texts { self.new.texts.ghost_name ≡ self.old.texts.ghost_name }
        ensures arranged { self.new.arranged.ghost_name ≡ self.old.arranged.ghost_name }
        ensures steady { IsSteady (outside_of ⟦<dyn Face as Face>⟧ page.entry) self.old.arena.now self.new.arena.now }
        ensures flowed { IfOk result (λ laid. AreFlowed (outside_of ⟦<dyn Face as Face>⟧ page.entry) self.old.arena.now.slots row.now.from row.now.containing row.now.c laid.items) }
        ensures costs { RowCosts (outside_of ⟦<dyn Face as Face>⟧ page.entry) self.old.arena.now.slots self.new.arena.now.slots row.now (counted self.old.texts.now self.old.arranged.now) (counted self.new.texts.now self.new.arranged.now) }
        ensures done { OnOk result (RowDone (outside_of ⟦<dyn Face as Face>⟧ page.entry) self.old.arena.now.slots self.new.arena.now.slots row.now (counted self.old.texts.now self.old.arranged.now) (counted self.new.texts.now self.new.arranged.now)) }
    {
        let mut laid = Vec::with_capacity(alloc, count_of(self.arena, row))?;
        let mut next = row.from;
        for _ in 0..MOST_BOXES {
            let Some(key) = next else {
                break;
            };
            next = self.arena.next(key);
            let own = row.at(key);
            if let Some(kept) = self.kept_box(&own)? {
                laid.push(kept)?;
                continue;
            }
            let begun = self.begin_box(alloc, page, &own)?;
            let contributing = self.flow(alloc, page, &begun.contributing)?;
            let sized = self.size_box(alloc, page, &own, &begun, &contributing)?;
            let inside = self.flow(alloc, page, &sized.inside)?;
            let made = self.finish_box(alloc, page, &own, &sized, &inside)?;
            laid.push(made)?;
        }
        Ok(laid)
    }

    // A box that is kept, with what is inside it shared.
    fn kept_box(&self, own: &RowBox) -> Result<Option<LaidBox>, AllocError>
        requires { HasBox self.now.arena.now.slots own.now }
        ensures linked { IsLinked (links_at self.now.arena.now.slots) }
        ensures kept { IfOk result (λ found. option_map (λ laid. piece_of laid.fragment) found ≡ kept_at self.now.arena.now.slots own.now.key own.now.c) }
        ensures flowed { IfOk result (λ found. IfSome found (λ laid. (outside : Outside) → CanFlowBox outside self.now.arena.now.slots own.now → IsFlowedAt outside self.now.arena.now.slots own.now laid)) }
    {
        let node = self.arena.node(own.key);
        match self.arena.kept(own.key, own.c) {
            Some(fragment) => {
                let fragment = shared(fragment)?;
                let style = node.style.clone()?;
                Ok(Some(LaidBox { style, fragment }))
            }
            None => Ok(None),
        }
    }

    // Begins a box: sees that the text of its paragraph is there, and finds how it is sized.
    fn begin_box(&mut self, alloc: Global, page: Page, own: &RowBox) -> Result<Begun, AllocError>
        requires can { CanFlowBox (outside_of ⟦<dyn Face as Face>⟧ page) self.old.arena.now.slots own.now }
        ensures arena { self.new.arena.ghost_name ≡ self.old.arena.ghost_name }
        ensures texts { self.new.texts.ghost_name ≡ self.old.texts.ghost_name }
        ensures arranged { self.new.arranged.ghost_name ≡ self.old.arranged.ghost_name }
        ensures most { (self.old.texts.now ≤ self.new.texts.now) × (self.new.texts.now ≤ self.old.texts.now + 1) }
        ensures steady { IsSteady (outside_of ⟦<dyn Face as Face>⟧ page.entry) self.old.arena.now self.new.arena.now }
        ensures begun { IfOk result (λ begun. IsBegun (outside_of ⟦<dyn Face as Face>⟧ page.entry) self.new.arena.now.slots own.now begun) }
        ensures can { IfOk result (λ begun. CanFlow (outside_of ⟦<dyn Face as Face>⟧ page.entry) self.new.arena.now.slots begun.contributing) }
        ensures costs { SeeingCosts self.old.arena.now.slots self.new.arena.now.slots own.now.key (counted self.old.texts.now self.old.arranged.now) (counted self.new.texts.now self.new.arranged.now) }
        ensures done { OnOk result (HasSeen self.old.arena.now.slots self.new.arena.now.slots own.now.key (counted self.old.texts.now self.old.arranged.now) (counted self.new.texts.now self.new.arranged.now)) }
    {
        self.see_text(alloc, page, own)?;
        let sizing = FlowBox::at(self.arena, own).sizing();
        let from = sizing.contributing(self.arena.first(own.key));
        Ok(Begun {
            sizing,
            contributing: own.children(&sizing, from, None),
        })
    }

    // Sees that the text of the paragraph that a box holds is there. Counts one step where it is prepared.
    fn see_text(&mut self, alloc: Global, page: Page, own: &RowBox) -> Result<(), AllocError>
        requires can { CanFlowBox (outside_of ⟦<dyn Face as Face>⟧ page) self.old.arena.now.slots own.now }
        ensures arena { self.new.arena.ghost_name ≡ self.old.arena.ghost_name }
        ensures texts { self.new.texts.ghost_name ≡ self.old.texts.ghost_name }
        ensures arranged { self.new.arranged.ghost_name ≡ self.old.arranged.ghost_name }
        ensures most { (self.old.texts.now ≤ self.new.texts.now) × (self.new.texts.now ≤ self.old.texts.now + 1) }
        ensures steady { IsSteady (outside_of ⟦<dyn Face as Face>⟧ page.entry) self.old.arena.now self.new.arena.now }
        ensures seen { OnOk result (IsSeen (outside_of ⟦<dyn Face as Face>⟧ page.entry) self.new.arena.now.slots own.now) }
        ensures costs { SeeingCosts self.old.arena.now.slots self.new.arena.now.slots own.now.key (counted self.old.texts.now self.old.arranged.now) (counted self.new.texts.now self.new.arranged.now) }
        ensures done { OnOk result (HasSeen self.old.arena.now.slots self.new.arena.now.slots own.now.key (counted self.old.texts.now self.old.arranged.now) (counted self.new.texts.now self.new.arranged.now)) }
    {
        if self.arena.text(own.key).is_some() {
            return Ok(());
        }
        let node = self.arena.node(own.key);
        match text_of(alloc, node, page.faces, self.scratch, self.texts)? {
            Some(text) => {
                self.arena.keep_text(own.key, text);
                Ok(())
            }
            None => Ok(()),
        }
    }

    // Sizes a box by the contributions of its children.
    fn size_box(
        &self,
        alloc: Global,
        page: Page,
        own: &RowBox,
        begun: &Begun,
        contributing: &[LaidBox],
    ) -> Result<SizedBox, AllocError>
        requires begun { IsBegun (outside_of ⟦<dyn Face as Face>⟧ page) self.now.arena.now.slots own.now begun.now }
        requires flowed { AreFlowed (outside_of ⟦<dyn Face as Face>⟧ page) self.now.arena.now.slots begun.now.contributing.from begun.now.contributing.containing begun.now.contributing.c contributing.now }
        ensures sized { IfOk result (λ sized. IsSized (outside_of ⟦<dyn Face as Face>⟧ page.entry) self.now.arena.now.slots own.now sized) }
        ensures can { IfOk result (λ sized. CanFlow (outside_of ⟦<dyn Face as Face>⟧ page.entry) self.now.arena.now.slots sized.inside) }
    {
        let flow_box = FlowBox::at(self.arena, own);
        let children = LaidInside {
            boxes: contributing,
        };
        let size = flow_box.inline_size(alloc, page.view, begun.sizing, children)?;
        let from = size.laid_inside(self.arena.first(own.key));
        Ok(SizedBox {
            size,
            inside: own.children(&begun.sizing, from, size.used()),
        })
    }

    // Finishes a box by its children, and keeps it: the one place where a box is laid out under the sizes of its containing block. Counts
    // one step where its content is arranged.
    fn finish_box(
        &mut self,
        alloc: Global,
        page: Page,
        own: &RowBox,
        sized: &SizedBox,
        inside: &[LaidBox],
    ) -> Result<LaidBox, AllocError>
        requires sized { IsSized (outside_of ⟦<dyn Face as Face>⟧ page) self.old.arena.now.slots own.now sized.now }
        requires flowed { AreFlowed (outside_of ⟦<dyn Face as Face>⟧ page) self.old.arena.now.slots sized.now.inside.from sized.now.inside.containing sized.now.inside.c inside.now }
        ensures arena { self.new.arena.ghost_name ≡ self.old.arena.ghost_name }
        ensures texts { self.new.texts.ghost_name ≡ self.old.texts.ghost_name }
        ensures arranged { self.new.arranged.ghost_name ≡ self.old.arranged.ghost_name }
        ensures most { (self.old.arranged.now ≤ self.new.arranged.now) × (self.new.arranged.now ≤ self.old.arranged.now + 1) }
        ensures no_text { self.new.texts.now ≡ self.old.texts.now }
        ensures keeps { IfOk result (λ laid. Keeps self.old.arena.now self.new.arena.now own.now.key own.now.c (piece_of laid.fragment)) }
        ensures unchanged { OnErr result (self.new.arena.now ≡ self.old.arena.now) }
        ensures steady { IsSteady (outside_of ⟦<dyn Face as Face>⟧ page.entry) self.old.arena.now self.new.arena.now }
        ensures flowed { IfOk result (λ laid. IsFlowedAt (outside_of ⟦<dyn Face as Face>⟧ page.entry) self.new.arena.now.slots own.now laid) }
    {
        let flow_box = FlowBox::at(self.arena, own);
        let style = flow_box.node.style.clone()?;
        let children = LaidInside { boxes: inside };
        let fragment = flow_box.laid(alloc, page.faces, sized.size, children, self.arranged)?;
        let copy = shared(&fragment)?;
        self.arena.keep(own.key, own.c, copy)?;
        Ok(LaidBox { style, fragment })
    }
}
