//! The content of a box: block-level children one under the other, or the lines of a paragraph (CSS 2, 8.3.1, 9.4.1 and 9.4.2).

ghost use Rattle.std.specs.Prelude.{◌≡◌, ◌+◌, ◌*◌, ◌≤◌, ◌^◌, ℕ, List, All, IfOk, OnOk, Some, false, length, map, option_copied, pos};
ghost use Rattle.face_api.specs.Faces.{faces_of};
ghost use Rattle.fragment_types.specs.Fragment.{Pieces, before, pieces_of};
ghost use Rattle.fragment_types.specs.Item.{entries_of};
ghost use Rattle.style_types.specs.Style.{IsBounded};
ghost use Rattle.block_flow.specs.Adjoining.{edges};
ghost use Rattle.box_gen.specs.Tree.{content_of, inline};
ghost use Rattle.line_place.specs.Spread.{spread};
ghost use Rattle.para_lines.specs.Paragraph.{atom_of};
ghost use Rattle.para_lines.specs.Reach.{IsNearLine, atom_reach};
ghost use Rattle.relayout.specs.Atoms as atoms;
ghost use Rattle.relayout.specs.Boxed.{block_box};
ghost use Rattle.relayout.specs.Content as rule;
ghost use Rattle.relayout.specs.Content.{AreStacked, IsFilled, child_box};
ghost use Rattle.relayout.specs.Flowed.{AreLaid, Laid, as_laid};
ghost use Rattle.relayout.specs.Fit.{room_in};
ghost use Rattle.relayout.specs.Near.{HasReach, IsNearLaid};
ghost use Rattle.relayout.specs.Intrinsic.{IsTextOf};
ghost use Rattle.relayout.specs.Paragraph.{HasAtoms};
ghost use Rattle.relayout.specs.Reach.{IsBase};
ghost use Rattle.relayout.specs.Sizes.{containing_of};

use crate::flow_box::FlowBox;
use crate::flowed::LaidBox;
use crate::inside::{LaidAtom, LaidInside, LaidParagraph, PreparedParagraph};
use crate::sizes::Containing;
use crate::styled::ChildStyle;
use block_flow::{ChildBox, stack as stack_of};
use box_gen::Content;
use face_api::{Face, Faces};
use fragment_types::{Fragment, FragmentKind, Fragments};
use margin_collapse::Margins;
use para_lines::{Atom, Container, paragraph_lines};
use std::alloc::{AllocError, Global};
use std::sync::ledger::Ledger;
use style_types::Style;
use wm_modes::FlowRect;
use wm_units::Steps;

/// What stands in a box. Lengths are in units of 1/64 px.
#[derive(Debug, Drop)]
pub(crate) struct Filling {
    pub(crate) parts: Fragments,
    /// Its block extent.
    pub(crate) extent: i64,
    /// The margins of children that adjoin the box's start and its end.
    pub(crate) start: Margins,
    pub(crate) end: Margins,
    /// Whether there are lines.
    pub(crate) lines: bool,
    /// Whether all children collapse through.
    pub(crate) through: bool,
}

/// Children as their container stacks them.
type Children = Vec<ChildBox>;

/// The inline-blocks of a paragraph in order.
type Atoms = Vec<Atom>;

// A child as its container stacks it.
fn child_of(laid: &LaidBox) -> ChildBox
    ensures { result ≡ child_box laid.now }
{
    let size = laid.fragment.rect.block;
    match &laid.fragment.kind {
        FragmentKind::Box(part) => ChildBox {
            size,
            start: part.start,
            end: part.end,
            through: part.through,
        },
        FragmentKind::Line { .. }
        | FragmentKind::Span
        | FragmentKind::Run { .. }
        | FragmentKind::Measure { .. } => ChildBox {
            size,
            start: Margins::none(),
            end: Margins::none(),
            through: false,
        },
    }
}

fn children_of(alloc: Global, laid: &[LaidBox]) -> Result<Children, AllocError>
    ensures { IfOk result (λ made. made.items ≡ map child_box laid.now) }
{
    let mut made = Vec::with_capacity(alloc, laid.len())?;
    for child in laid {
        made.push(child_of(child))?;
    }
    Ok(made)
}

// A child at this place on the block axis.
fn put(own: Containing, size: i64, child: &LaidBox, place: i64) -> Result<Fragment, AllocError>
    requires near { IsNearLaid child.now }
    requires size { IsBase (Some size) }
    ensures { IfOk result (λ made. (next : Pieces) → before made next ≡ rule.put own size (as_laid child.now) place next) }
{
    let styled = ChildStyle {
        containing: own,
        style: &child.style,
        inline: size,
    };
    let rect = child.fragment.rect;
    let made = child.fragment.moved_to(FlowRect {
        i: styled.inline_place(rect.inline),
        b: place,
        ..rect
    })?;
    Ok(made)
}

// Children at these places.
fn set_down(
    alloc: Global,
    own: Containing,
    size: i64,
    laid: LaidInside<'_>,
    places: &[i64],
) -> Result<Fragments, AllocError>
    requires size { IsBase (Some size) }
    requires count { length places.now ≡ length laid.boxes.now }
    ensures { IfOk result (λ made. pieces_of made.items ≡ rule.set_down own size (map as_laid laid.entry.boxes.now) places.now) }
{
    let mut made = Vec::with_capacity(alloc, laid.boxes.len())?;
    for k in 0..laid.boxes.len() {
        made.push(put(own, size, &laid.boxes[k], places[k])?)?;
    }
    Ok(made)
}

// The inline-blocks of a paragraph.
fn atoms_of(
    alloc: Global,
    style: &Style,
    size: i64,
    laid: LaidInside<'_>,
) -> Result<Atoms, AllocError>
    requires { IsBase (Some size) }
    ensures are { IfOk result (λ made. map atom_of made.items ≡ map (λ child. atoms.atom_in style.now size (as_laid child)) laid.entry.boxes.now) }
    ensures near { IfOk result (λ made. All (λ atom. atom_reach (atom_of atom) ≤ 5 * 2 ^ 36) made.items) }
{
    let mut made = Vec::with_capacity(alloc, laid.boxes.len())?;
    for child in laid.boxes {
        let own = LaidAtom { laid: child, size };
        made.push(own.atom_in(style)?)?;
    }
    Ok(made)
}

// How far lines reach that stand one under the other from 0 on.
fn block_extent(lines: &[Fragment]) -> i64
    requires near { All IsNearLine lines.now }
    requires stacked { AreStacked (pos 0) (pieces_of lines.now) }
    ensures { result ≡ rule.block_extent (pieces_of lines.now) }
{
    match lines.last() {
        Some(line) => line.rect.b + line.rect.block,
        None => 0,
    }
}

/// The lines of a paragraph. Counts one step, and none where memory runs out before lines are filled.
pub(crate) fn paragraph<L: Ledger>(
    alloc: Global,
    container: &Container,
    content: LaidParagraph<'_, '_>,
    faces: &Faces,
    arranged: &mut Steps<L>,
) -> Result<Filling, AllocError>
    requires style { IsBounded container.now.style }
    requires size { IsBase (Some container.now.size) }
    ensures ticks { OnOk result (arranged.new ≡ arranged.old + 1) }
    ensures most { (arranged.old ≤ arranged.new) × (arranged.new ≤ arranged.old + 1) }
    ensures filled { IfOk result (λ made. (list : List Laid) → AreLaid content.entry.inside.boxes.now list → IsFilled made (rule.lines_in (faces_of ⟦<dyn Face as Face>⟧ faces.now) container.now (entries_of content.entry.own.items.now) content.entry.own.text.now list)) }
    ensures reach { IfOk result (λ made. (list : List Laid) (reach : ℕ) → AreLaid content.entry.inside.boxes.now list → All (HasReach reach) content.entry.inside.boxes.now → spread (pieces_of made.parts.items) ≤ reach + room_in (inline (entries_of content.entry.own.items.now)) + 2 ^ 38) }
{
    let atoms = atoms_of(alloc, &container.style, container.size, content.inside)?;
    let own = content.own;
    let parts = paragraph_lines(
        alloc, own.items, own.text, container, &atoms, faces, arranged,
    )?;
    Ok(Filling {
        extent: block_extent(&parts),
        start: Margins::none(),
        end: Margins::none(),
        lines: !parts.is_empty(),
        through: true,
        parts,
    })
}

impl FlowBox<'_> {
    // Its children, where it has this inline size, one under the other. Counts one step, and none where memory runs out before they are
    // stacked.
    fn stack<L: Ledger>(
        &self,
        alloc: Global,
        size: i64,
        laid: LaidInside<'_>,
        arranged: &mut Steps<L>,
    ) -> Result<Filling, AllocError>
        requires { IsBase (Some size) }
        ensures ticks { OnOk result (arranged.new ≡ arranged.old + 1) }
        ensures most { (arranged.old ≤ arranged.new) × (arranged.new ≤ arranged.old + 1) }
        ensures filled { IfOk result (λ made. (list : List Laid) → AreLaid laid.entry.boxes.now list → IsFilled made (rule.stack (containing_of self.now.node.now.style) (edges (block_box self.now.containing self.now.node.now.style self.now.c false)) size list)) }
        ensures reach { IfOk result (λ made. (reach : ℕ) → All (HasReach reach) laid.entry.boxes.now → spread (pieces_of made.parts.items) ≤ reach + (length laid.entry.boxes.now + 1) * 2 ^ 38) }
    {
        let joins = self.contained_style().block_box(false).edges();
        let children = children_of(alloc, laid.boxes)?;
        let stacked = stack_of(alloc, joins, &children, arranged)?;
        let inside = Containing::of(&self.node.style);
        let parts = set_down(alloc, inside, size, laid, stacked.places())?;
        Ok(Filling {
            parts,
            extent: stacked.extent(),
            start: stacked.start(),
            end: stacked.end(),
            lines: false,
            through: stacked.through(),
        })
    }

    /// What stands in it, where it has this inline size. Counts one step, and none where memory runs out before.
    pub(crate) fn filled<L: Ledger>(
        &self,
        alloc: Global,
        size: i64,
        laid: LaidInside<'_>,
        faces: &Faces,
        arranged: &mut Steps<L>,
    ) -> Result<Filling, AllocError>
        requires size { IsBase (Some size) }
        requires atoms { HasAtoms (content_of self.now.node.now.content) (length laid.boxes.now) }
        ensures ticks { OnOk result (arranged.new ≡ arranged.old + 1) }
        ensures most { (arranged.old ≤ arranged.new) × (arranged.new ≤ arranged.old + 1) }
        ensures filled { IfOk result (λ made. (list : List Laid) → AreLaid laid.entry.boxes.now list → IsTextOf (faces_of ⟦<dyn Face as Face>⟧ faces.now) self.now.node.now.style (content_of self.now.node.now.content) (option_copied self.now.text) → IsFilled made (rule.filled (faces_of ⟦<dyn Face as Face>⟧ faces.now) self.now.node.now.name self.now.node.now.style (edges (block_box self.now.containing self.now.node.now.style self.now.c false)) size (content_of self.now.node.now.content) list)) }
        ensures reach { IfOk result (λ made. (list : List Laid) (reach : ℕ) → AreLaid laid.entry.boxes.now list → All (HasReach reach) laid.entry.boxes.now → spread (pieces_of made.parts.items) ≤ reach + room_in (content_of self.now.node.now.content) + (length laid.entry.boxes.now + 1) * 2 ^ 38) }
    {
        let node = self.node;
        match (&node.content, self.text) {
            (Content::Inline(items), Some(text)) => {
                let container = Container {
                    name: node.name,
                    style: *node.style,
                    size,
                };
                let own = PreparedParagraph { items, text };
                let content = LaidParagraph { own, inside: laid };
                let made = paragraph(alloc, &container, content, faces, arranged)?;
                Ok(made)
            }
            (Content::Inline(_), None) => {
                let made = self.stack(alloc, size, laid, arranged)?;
                Ok(made)
            }
            (Content::Blocks, _) => {
                let made = self.stack(alloc, size, laid, arranged)?;
                Ok(made)
            }
        }
    }
}
