//! Intrinsic sizes: the min-content and max-content contributions of a box to its containing block's inline axis, and the sizes of its content
//! (CSS 2, 10.3.5; CSS Writing Modes 4, 7.3).

ghost use Rattle.std.specs.Prelude.{◌≡◌, ◌+◌, ◌≤◌, ◌^◌, List, Option, IfOk, IfSome, OnOk, map, option_copied, unsigned_abs};
ghost use Rattle.face_api.specs.Faces.{faces_of};
ghost use Rattle.face_api.specs.Table.{Table};
ghost use Rattle.fragment_types.specs.declared.fragment.Fragment.{out-Fragment};
ghost use Rattle.fragment_types.specs.Fragment.{kind_of};
ghost use Rattle.fragment_types.specs.Item.{entries_of};
ghost use Rattle.style_types.specs.declared.style.Style as styles;
ghost use Rattle.style_types.specs.Style.{IsBounded};
ghost use Rattle.box_gen.specs.Tree.{content_of};
ghost use Rattle.relayout.specs.Intrinsic as rule;
ghost use Rattle.relayout.specs.Intrinsic.{IsTextOf};
ghost use Rattle.relayout.specs.Near.{IsNearLaid};
ghost use Rattle.relayout.specs.Paragraph.{IsReady};
ghost use Rattle.relayout.specs.Reach.{IsContribution, IsContent};

use crate::flow_box::FlowBox;
use crate::flowed::LaidBox;
use crate::inside::{Contributions, HeldParagraph, PreparedParagraph};
use crate::styled::BasedStyle;
use box_gen::Content;
use bumpalo::Bump;
use face_api::{Face, Faces};
use fragment_types::FragmentKind;
use line_fill::Intrinsic;
use ortho_flow::contribution;
use para_lines::paragraph_sizes;
use para_prepare::{LentParagraph, Prepared, prepare_lent};
use std::alloc::{AllocError, Global};
use std::sync::ledger::Ledger;
use style_types::{Style, UnicodeBidi};
use wm_modes::{Direction, FlowRect, WritingMode};
use wm_units::{Steps, cap_size};

/// Lengths in units of 1/64 px.
type Lengths = Vec<i64>;

/// The contribution of a child to a containing block of this mode: as it was measured where it is parallel, as it was laid out where it is
/// orthogonal.
pub(crate) fn contributed(mode: WritingMode, child: &LaidBox) -> Intrinsic
    requires { IsNearLaid child.now }
    ensures value { result ≡ rule.contributed mode child.now.style (kind_of (out-Fragment child.now.fragment).kind) }
    ensures near { IsContribution result }
{
    match &child.fragment.kind {
        FragmentKind::Measure { min, max } => Intrinsic {
            min: *min,
            max: *max,
        },
        FragmentKind::Box(part) => orthogonal_contribution(mode, &child.style, part.content),
        FragmentKind::Line { .. } | FragmentKind::Span | FragmentKind::Run { .. } => {
            Intrinsic { min: 0, max: 0 }
        }
    }
}

// The margin box of an orthogonal child with this content area, which its block size makes (CSS Writing Modes 4, 7.3.2).
fn orthogonal_contribution(mode: WritingMode, style: &Style, content: FlowRect) -> Intrinsic
    requires style { IsBounded style.now }
    requires near { unsigned_abs content.inline ≤ 2 ^ 36 }
    ensures value { result ≡ rule.orthogonal_contribution mode style.now content }
    ensures near { IsContribution result }
{
    let based = BasedStyle { style, base: None };
    let edges = based.inner_edges_across(style.mode);
    let extent = contribution(content.inline, edges, based.margins_along(mode));
    Intrinsic {
        min: extent,
        max: extent,
    }
}

fn level_of(dir: Direction) -> u8
    ensures value { result ≡ rule.level_of dir }
    ensures near { result ≤ 1 }
{
    match dir {
        Direction::Ltr => 0,
        Direction::Rtl => 1,
    }
}

/// The base level of a paragraph in a block container (CSS Writing Modes 4, 2.4.3).
fn base_by(bidi: UnicodeBidi, dir: Direction) -> Option<u8>
    ensures value { result ≡ rule.base_by bidi dir }
    ensures near { IfSome result (λ base. base ≤ 1) }
{
    match bidi {
        UnicodeBidi::Plaintext => None,
        UnicodeBidi::Normal
        | UnicodeBidi::Embed
        | UnicodeBidi::Isolate
        | UnicodeBidi::BidiOverride
        | UnicodeBidi::IsolateOverride => Some(level_of(dir)),
    }
}

impl HeldParagraph<'_> {
    /// Its prepared text. Counts one step, and none where memory runs out before.
    pub(crate) fn prepared<L: Ledger>(
        &self,
        alloc: Global,
        faces: &Faces,
        scratch: &mut Bump,
        steps: &mut Steps<L>,
    ) -> Result<Prepared, AllocError>
        ensures ticks { OnOk result (steps.new ≡ steps.old + 1) }
        ensures most { (steps.old ≤ steps.new) × (steps.new ≤ steps.old + 1) }
        ensures text { IfOk result (λ text. text ≡ rule.prepared (faces_of ⟦<dyn Face as Face>⟧ faces.now) self.now.style.now (entries_of self.now.items.now)) }
        ensures ready { IfOk result (λ text. IsReady (entries_of self.now.items.now) text) }
    {
        let paragraph = LentParagraph {
            base: base_by(self.style.bidi, self.style.used_direction()),
            style: self.style,
            items: self.items,
        };
        let text = prepare_lent(alloc, paragraph, faces, scratch, steps)?;
        Ok(text)
    }
}

fn greater(one: Intrinsic, other: Intrinsic) -> Intrinsic
    ensures { result ≡ rule.greater one other }
{
    Intrinsic {
        min: one.min.max(other.min),
        max: one.max.max(other.max),
    }
}

// The greatest contributions of block-level children.
fn greatest(contributions: &[Intrinsic]) -> Intrinsic
    ensures { result ≡ rule.greatest contributions.now }
{
    let mut greatest = Intrinsic { min: 0, max: 0 };
    for one in contributions {
        greatest = greater(greatest, *one);
    }
    greatest
}

fn mins_of(alloc: Global, contributions: &[Intrinsic]) -> Result<Lengths, AllocError>
    ensures { IfOk result (λ made. made.items ≡ map (λ a. a.min) contributions.now) }
{
    let mut made = Vec::with_capacity(alloc, contributions.len())?;
    for one in contributions {
        made.push(one.min)?;
    }
    Ok(made)
}

fn maxs_of(alloc: Global, contributions: &[Intrinsic]) -> Result<Lengths, AllocError>
    ensures { IfOk result (λ made. made.items ≡ map (λ a. a.max) contributions.now) }
{
    let mut made = Vec::with_capacity(alloc, contributions.len())?;
    for one in contributions {
        made.push(one.max)?;
    }
    Ok(made)
}

impl PreparedParagraph<'_> {
    // What it comes to with these inline-blocks.
    #[tactic(auto, using(crate::proofs::ContributionLaws::mins_near, crate::proofs::ContributionLaws::maxs_near))]
    fn content_sizes(
        &self,
        alloc: Global,
        contributions: Contributions<'_>,
    ) -> Result<Intrinsic, AllocError>
        ensures { IfOk result (λ sizes. sizes ≡ rule.paragraph_content (entries_of self.now.items.now) self.now.text.now contributions.entry.sizes.now) }
    {
        let mins = mins_of(alloc, contributions.sizes)?;
        let maxs = maxs_of(alloc, contributions.sizes)?;
        let sizes = paragraph_sizes(alloc, self.items, self.text, &mins, &maxs)?;
        Ok(sizes)
    }
}

fn cap_both(sizes: Intrinsic) -> Intrinsic
    ensures value { result ≡ rule.cap_both sizes }
    ensures near { IsContent result }
{
    Intrinsic {
        min: cap_size(sizes.min),
        max: cap_size(sizes.max),
    }
}

impl FlowBox<'_> {
    // What its content comes to with these children, before it is held.
    fn content_together(
        &self,
        alloc: Global,
        contributions: Contributions<'_>,
    ) -> Result<Intrinsic, AllocError>
        ensures { IfOk result (λ sizes. (faces : List (Option Table)) (style : styles.Style) → IsTextOf faces style (content_of self.now.node.now.content) (option_copied self.now.text) → sizes ≡ rule.together faces style (content_of self.now.node.now.content) contributions.entry.sizes.now) }
    {
        match (&self.node.content, self.text) {
            (Content::Inline(items), Some(text)) => {
                let own = PreparedParagraph { items, text };
                let sizes = own.content_sizes(alloc, contributions)?;
                Ok(sizes)
            }
            (Content::Blocks, _) | (Content::Inline(_), None) => {
                Ok(greatest(contributions.sizes))
            }
        }
    }

    /// The min-content and the max-content size of its content, by the contributions of its children.
    pub(crate) fn inner_sizes(
        &self,
        alloc: Global,
        contributions: Contributions<'_>,
    ) -> Result<Intrinsic, AllocError>
        ensures value { IfOk result (λ sizes. (faces : List (Option Table)) (style : styles.Style) → IsTextOf faces style (content_of self.now.node.now.content) (option_copied self.now.text) → sizes ≡ rule.inner_by faces style (content_of self.now.node.now.content) contributions.entry.sizes.now) }
        ensures near { IfOk result IsContent }
    {
        let sizes = self.content_together(alloc, contributions)?;
        Ok(cap_both(sizes))
    }
}
