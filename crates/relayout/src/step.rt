//! A box between the contributions of its children and what is laid out of them: its inline size, and the box by it (CSS 2, 10.3; CSS
//! Sizing 3, 4 and 5).

ghost use Rattle.std.specs.Prelude.{◌≡◌, ◌+◌, ◌*◌, ◌≤◌, ◌^◌, ℕ, ℤ, List, Option, All, IfOk, None, Some, length, map, option_copied};
ghost use Rattle.face_api.specs.Faces.{faces_of};
ghost use Rattle.face_api.specs.Table.{Table};
ghost use Rattle.box_arena.specs.At.{node_of};
ghost use Rattle.box_gen.specs.Tree.{content_of};
ghost use Rattle.line_place.specs.Spread.{spread};
ghost use Rattle.relayout.specs.Fit.{room_in};
ghost use Rattle.relayout.specs.Flowed.{AreLaid, Laid, Member, part_of};
ghost use Rattle.relayout.specs.Inline.{Outside};
ghost use Rattle.relayout.specs.Intrinsic as intrinsic;
ghost use Rattle.relayout.specs.Intrinsic.{IsTextOf};
ghost use Rattle.relayout.specs.Near.{HasReach};
ghost use Rattle.relayout.specs.Paragraph.{HasAtoms};
ghost use Rattle.relayout.specs.Reach.{IsContribution, IsBase, IsContent, IsPageView};
ghost use Rattle.relayout.specs.Row.{HasBox, IsBoxAt};
ghost use Rattle.relayout.specs.Step as rule;
ghost use Rattle.relayout.specs.Step.{AreUnder, HasChildren, IsInlineSize, under};

use crate::flow_box::FlowBox;
use crate::inline::PageView;
use crate::inside::{Contributions, LaidInside};
use crate::intrinsic::contributed;
use crate::row::RowBox;
use crate::sizes::Containing;
use crate::sizing::{InlineSize, Sizing, definite_size};
use box_arena::BoxArena;
use face_api::{Face, Faces};
use fragment_types::Fragment;
use line_fill::Intrinsic;
use para_prepare::Prepared;
use std::alloc::{AllocError, Global};
use std::sync::ledger::Ledger;
use wm_modes::WritingMode;
use wm_units::Steps;

/// The min-content and max-content contributions of children.
type IntrinsicSizes = Vec<Intrinsic>;

// The contributions of children to a containing block of this mode.
fn contributions_of(
    alloc: Global,
    mode: WritingMode,
    children: LaidInside<'_>,
) -> Result<IntrinsicSizes, AllocError>
    ensures value { IfOk result (λ made. (handed : Option ℤ) (members : List Member) → AreUnder (under None handed) children.entry.boxes.now members → made.items ≡ map (intrinsic.contribution mode handed) members) }
    ensures near { IfOk result (λ made. All IsContribution made.items) }
    ensures count { IfOk result (λ made. length made.items ≡ length children.entry.boxes.now) }
{
    let mut made = Vec::with_capacity(alloc, children.boxes.len())?;
    for child in children.boxes {
        made.push(contributed(mode, child))?;
    }
    Ok(made)
}

impl<'a> FlowBox<'a> {
    /// A box of an arena.
    pub(crate) fn at(arena: &'a BoxArena<Prepared>, own: &RowBox) -> FlowBox<'a>
        requires { HasBox arena.now.slots own.now }
        ensures { IsBoxAt arena.now.slots own.now result }
    {
        FlowBox {
            containing: own.containing,
            c: own.c,
            node: arena.node(own.key),
            text: arena.text(own.key),
        }
    }

    /// How it is sized.
    pub(crate) fn sizing(&self) -> Sizing
        ensures sizing { result ≡ rule.sizing_of self.now.containing (node_of self.now.node.now) self.now.c }
        ensures handed { IsBase result.handed }
        ensures definite { IsBase result.definite }
    {
        let own = self.contained_style();
        let measures = own.is_measured();
        Sizing {
            own: Containing::of(&self.node.style),
            handed: self.handed_on(),
            measures,
            definite: own.definite_under(measures),
        }
    }

    // The min-content and the max-content size of its content, where it has these children.
    fn content_sizes(
        &self,
        alloc: Global,
        children: LaidInside<'_>,
    ) -> Result<Intrinsic, AllocError>
        ensures value { IfOk result (λ sizes. (faces : List (Option Table)) (handed : Option ℤ) (members : List Member) → IsTextOf faces self.now.node.now.style (content_of self.now.node.now.content) (option_copied self.now.text) → AreUnder (under None handed) children.entry.boxes.now members → sizes ≡ intrinsic.inner faces self.now.node.now.style (content_of self.now.node.now.content) handed members) }
        ensures near { IfOk result IsContent }
    {
        let made = contributions_of(alloc, self.node.style.mode, children)?;
        let sizes = self.inner_sizes(alloc, Contributions { sizes: &made })?;
        Ok(sizes)
    }

    // Its inline size, where its content has these sizes.
    fn size_by_content(&self, view: PageView, measures: bool, content: Intrinsic) -> InlineSize
        requires { IsPageView view }
        ensures value { result ≡ rule.size_by_content view measures self.now.containing self.now.node.now.style self.now.c content }
        ensures near { IsInlineSize result }
    {
        let own = self.contained_style();
        if measures {
            InlineSize::MinMax(own.sizes_measured().hold_both(content))
        } else {
            InlineSize::Used(own.shrunk(view, content))
        }
    }

    /// Its inline size. `children` are laid out under an unknown inline size, where it depends on them.
    pub(crate) fn inline_size(
        &self,
        alloc: Global,
        view: PageView,
        sizing: Sizing,
        children: LaidInside<'_>,
    ) -> Result<InlineSize, AllocError>
        requires view { IsPageView view }
        requires sizing { sizing ≡ rule.sizing_of self.now.containing (node_of self.now.node.now) self.now.c }
        requires definite { IsBase sizing.definite }
        ensures value { IfOk result (λ size. (outside : Outside) (members : List Member) → outside.view ≡ view → IsTextOf outside.faces self.now.node.now.style (content_of self.now.node.now.content) (option_copied self.now.text) → (sizing.definite ≡ None → AreUnder (under None sizing.handed) children.entry.boxes.now members) → size ≡ rule.inline_size_of outside self.now.containing (node_of self.now.node.now) self.now.c members) }
        ensures near { IfOk result IsInlineSize }
    {
        match sizing.definite {
            Some(size) => Ok(definite_size(sizing.measures, size)),
            None => {
                let content = self.content_sizes(alloc, children)?;
                Ok(self.size_by_content(view, sizing.measures, content))
            }
        }
    }

    /// The box by its inline size. `children` are laid out under that, unless it is measured alone. Counts one step where its content is
    /// arranged, and none where memory runs out before.
    pub(crate) fn laid<L: Ledger>(
        &self,
        alloc: Global,
        faces: &Faces,
        size: InlineSize,
        children: LaidInside<'_>,
        arranged: &mut Steps<L>,
    ) -> Result<Fragment, AllocError>
        requires size { IsInlineSize size }
        requires children { HasChildren size (content_of self.now.node.now.content) (length children.boxes.now) }
        ensures most { (arranged.old ≤ arranged.new) × (arranged.new ≤ arranged.old + 1) }
        ensures part { IfOk result (λ made. (outside : Outside) (members : List Member) → outside.faces ≡ faces_of ⟦<dyn Face as Face>⟧ faces.now → IsTextOf outside.faces self.now.node.now.style (content_of self.now.node.now.content) (option_copied self.now.text) → rule.AreInside self.now.containing (node_of self.now.node.now) self.now.c size children.entry.boxes.now members → part_of made ≡ (rule.box_by outside self.now.containing (node_of self.now.node.now) self.now.c size members).part) }
        ensures reach { IfOk result (λ made. (list : List Laid) (reach : ℕ) → AreLaid children.entry.boxes.now list → All (HasReach reach) children.entry.boxes.now → spread (part_of made).inner ≤ reach + room_in (content_of self.now.node.now.content) + (length children.entry.boxes.now + 1) * 2 ^ 38) }
    {
        match size {
            InlineSize::MinMax(content) => {
                let made = self.measured(alloc, content)?;
                Ok(made)
            }
            InlineSize::Used(used) => {
                let made = self.laid_under(alloc, faces, used, children, arranged)?;
                Ok(made)
            }
        }
    }

    // The box of this used inline size.
    fn laid_under<L: Ledger>(
        &self,
        alloc: Global,
        faces: &Faces,
        size: i64,
        children: LaidInside<'_>,
        arranged: &mut Steps<L>,
    ) -> Result<Fragment, AllocError>
        requires size { IsBase (Some size) }
        requires atoms { HasAtoms (content_of self.now.node.now.content) (length children.boxes.now) }
        ensures most { (arranged.old ≤ arranged.new) × (arranged.new ≤ arranged.old + 1) }
        ensures part { IfOk result (λ made. (outside : Outside) (members : List Member) → outside.faces ≡ faces_of ⟦<dyn Face as Face>⟧ faces.now → IsTextOf outside.faces self.now.node.now.style (content_of self.now.node.now.content) (option_copied self.now.text) → rule.AreLaidUnder self.now.containing (node_of self.now.node.now) self.now.c size children.entry.boxes.now members → part_of made ≡ (rule.box_by outside self.now.containing (node_of self.now.node.now) self.now.c (rule.used_size size) members).part) }
        ensures reach { IfOk result (λ made. (list : List Laid) (reach : ℕ) → AreLaid children.entry.boxes.now list → All (HasReach reach) children.entry.boxes.now → spread (part_of made).inner ≤ reach + room_in (content_of self.now.node.now.content) + (length children.entry.boxes.now + 1) * 2 ^ 38) }
    {
        let content = self.filled(alloc, size, children, faces, arranged)?;
        let made = self.boxed(alloc, size, content)?;
        Ok(made)
    }
}
