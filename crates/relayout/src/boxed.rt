//! A box from what is inside it: its sizes, its margins that adjoin others, its fragment (CSS 2, 8.3.1, 10.3, 10.6 and 10.7).

ghost use Rattle.std.specs.Prelude.{◌≡◌, ◌≤◌, ◌^◌, List, ℤ, ◌+ℤ◌, IfOk, Some, unsigned_abs};
ghost use Rattle.margin_collapse.specs.Pairs.{IsPairOf};
ghost use Rattle.fragment_types.specs.Fragment as kinds;
ghost use Rattle.fragment_types.specs.Fragment.{kind_of, pieces_of};
ghost use Rattle.box_arena.specs.At.{node_of};
ghost use Rattle.relayout.specs.Boxed as rule;
ghost use Rattle.relayout.specs.Content as contents;
ghost use Rattle.relayout.specs.Content.{IsFilled};
ghost use Rattle.relayout.specs.Flowed.{pair_of, part_of};
ghost use Rattle.relayout.specs.Reach.{IsBase, IsContent};

use crate::content::Filling;
use crate::edges::side_in;
use crate::flow_box::FlowBox;
use crate::sizes::{is_atom, is_flow_root};
use crate::styled::{BasedStyle, ContainedStyle};
use block_flow::{BlockBox, Edge};
use fragment_types::{BoxName, BoxPart, Fragment, FragmentKind, Fragments};
use line_fill::Intrinsic;
use margin_collapse::Margins;
use std::alloc::{AllocError, Global};
use std::rc::Rc;
use wm_modes::{FlowRect, FlowSide, Side, side_of};

impl FlowBox<'_> {
    /// The block size that percentages of its children refer to. An anonymous block is passed over.
    pub(crate) fn handed_on(&self) -> Option<i64>
        ensures value { result ≡ rule.handed_on self.now.containing (node_of self.now.node.now) self.now.c }
        ensures near { IsBase result }
    {
        if self.node.name.ordinal == 0 {
            self.contained_style().definite()
        } else {
            self.c.block
        }
    }

    /// The box under an inline size that isn't known, whose content area has these min-content and max-content sizes.
    pub(crate) fn measured(&self, alloc: Global, content: Intrinsic) -> Result<Fragment, AllocError>
        requires { IsContent content }
        ensures { IfOk result (λ made. part_of made ≡ (rule.measured self.now.containing (node_of self.now.node.now) content).part) }
    {
        let kind = measure(content, self.contained_style().around_measured());
        let rect = FlowRect {
            i: 0,
            b: 0,
            inline: 0,
            block: 0,
        };
        let made = fragment_of(alloc, self.node.name, rect, kind, Vec::new(alloc))?;
        Ok(made)
    }

    /// The box of this inline size and with this content.
    pub(crate) fn boxed(
        &self,
        alloc: Global,
        size: i64,
        content: Filling,
    ) -> Result<Fragment, AllocError>
        requires { IsBase (Some size) }
        ensures part { IfOk result (λ made. (filled : contents.Filled) → IsFilled content filled → part_of made ≡ (rule.boxed self.now.containing (node_of self.now.node.now) self.now.c size filled).part) }
        ensures inner { IfOk result (λ made. (part_of made).inner ≡ pieces_of content.parts.items) }
    {
        let own = self.contained_style();
        let extent = own.block_size(content.extent);
        let through = own.block_box(content.lines).is_through(content.through);
        let part = BoxPart {
            mode: self.node.style.mode,
            dir: self.node.style.used_direction(),
            content: own.content_area(size, extent),
            definite: self.handed_on(),
            start: own.start_margins(content.start),
            end: own.end_margins(through, content.end),
            through,
        };
        let rect = own.border_box(size, extent);
        let shared = Rc::new(alloc, part)?;
        let kind = FragmentKind::Box(shared);
        let made = fragment_of(alloc, self.node.name, rect, kind, content.parts)?;
        Ok(made)
    }
}

impl ContainedStyle<'_> {
    // Margins, borders and paddings on the containing block's inline axis, where its size isn't known.
    fn around_measured(&self) -> i64
        ensures value { result ≡ rule.around self.now.containing self.now.style.now }
        ensures near { unsigned_abs result ≤ 2 ^ 35 }
    {
        let based = BasedStyle {
            style: self.style,
            base: None,
        };
        based.margins_along(self.containing.mode) + based.inner_edges_along(self.containing.mode)
    }

    /// What decides which margins of the box adjoin.
    pub(crate) fn block_box(&self, lines: bool) -> BlockBox
        ensures { result ≡ rule.block_box self.now.containing self.now.style.now self.now.c lines }
    {
        let sizes = self.block_sizes();
        let based = self.based_style();
        BlockBox {
            is_flow_root: is_flow_root(self.style.display),
            start: based.edge_at(side_in(self.style.mode, FlowSide::BlockStart)),
            end: based.edge_at(side_in(self.style.mode, FlowSide::BlockEnd)),
            size: sizes.given(),
            min: sizes.min,
            has_lines: lines,
        }
    }

    // The border box, at 0, where the content area has these sizes.
    fn border_box(&self, size: i64, extent: i64) -> FlowRect
        requires size { IsBase (Some size) }
        requires extent { IsBase (Some extent) }
        ensures { result ≡ rule.border_box self.now.containing self.now.style.now self.now.c size extent }
    {
        let own = FlowRect {
            i: 0,
            b: 0,
            inline: self.border_along(size),
            block: self.border_across(extent),
        };
        turned(self.containing.is_parallel(self.style), own)
    }

    // The extent of a border box on its own inline axis.
    fn border_along(&self, size: i64) -> i64
        requires { IsBase (Some size) }
        ensures { result ≡ rule.border_along self.now.style.now self.now.c size }
    {
        size + self.based_style().inner_edges_along(self.style.mode)
    }

    // That on its block axis.
    fn border_across(&self, extent: i64) -> i64
        requires { IsBase (Some extent) }
        ensures { result ≡ rule.border_across self.now.style.now self.now.c extent }
    {
        extent + self.based_style().inner_edges_across(self.style.mode)
    }

    // The content area of these sizes in its border box.
    fn content_area(&self, size: i64, extent: i64) -> FlowRect
        requires size { IsBase (Some size) }
        requires extent { IsBase (Some extent) }
        ensures { result ≡ rule.content_area self.now.containing self.now.style.now self.now.c size extent }
    {
        let atom = is_atom(self.style.display);
        let own = FlowRect {
            i: self.edge_on(near_inline(atom)),
            b: self.edge_on(near_block(atom)),
            inline: size,
            block: extent,
        };
        turned(self.containing.is_parallel(self.style), own)
    }

    // Border and padding on a side of the containing block.
    fn edge_on(&self, side: FlowSide) -> i64
        ensures { result ≡ rule.edge_on self.now.containing self.now.style.now self.now.c side }
    {
        let side = side_of(self.containing.mode, self.containing.dir, side);
        self.based_style().inner_edge(side)
    }

    // The block size of a box whose content has this extent.
    fn block_size(&self, extent: i64) -> i64
        ensures value { result ≡ rule.block_size self.now.containing self.now.style.now self.now.c extent }
        ensures near { IsBase (Some result) }
    {
        let sizes = self.block_sizes();
        match sizes.given() {
            Some(size) => size,
            None => sizes.hold(extent),
        }
    }

    // The margins that adjoin its start, with those of its content.
    fn start_margins(&self, inner: Margins) -> Margins
        ensures { (starts : List ℤ) → IsPairOf inner starts → result ≡ pair_of (rule.starts_with self.now.containing self.now.style.now self.now.c starts) }
    {
        let side = side_in(self.containing.mode, FlowSide::BlockStart);
        Margins::of(self.based_style().margin_or_zero(side)).join(inner)
    }

    // Those that adjoin its end. Those of a content that collapses through adjoin its start.
    fn end_margins(&self, through: bool, inner: Margins) -> Margins
        ensures { (ends : List ℤ) → IsPairOf inner ends → result ≡ pair_of (rule.ends_with self.now.containing self.now.style.now self.now.c through ends) }
    {
        let side = side_in(self.containing.mode, FlowSide::BlockEnd);
        let margin = self.based_style().margin_or_zero(side);
        if through {
            Margins::of(margin)
        } else {
            Margins::of(margin).join(inner)
        }
    }
}

impl BasedStyle<'_> {
    // What decides which margins adjoin on a side of the page.
    fn edge_at(&self, side: Side) -> Edge
        ensures { result ≡ rule.edge_at self.now.style.now self.now.base side }
    {
        Edge {
            border: self.border(side),
            padding: self.padding(side),
        }
    }
}

// Own sizes and places on the axes of the containing block.
fn turned(parallel: bool, own: FlowRect) -> FlowRect
    ensures { result ≡ rule.turned parallel own.i own.b own.inline own.block }
{
    if parallel {
        own
    } else {
        FlowRect {
            i: own.i,
            b: own.b,
            inline: own.block,
            block: own.inline,
        }
    }
}

// A fragment with these inside it.
fn fragment_of(
    alloc: Global,
    name: BoxName,
    rect: FlowRect,
    kind: FragmentKind,
    parts: Fragments,
) -> Result<Fragment, AllocError>
    ensures { IfOk result (λ made. part_of made ≡ record { name = name; rect = rect; kind = kind_of kind; inner = pieces_of parts.items }) }
{
    Ok(Fragment {
        name,
        rect,
        kind,
        children: Rc::new(alloc, parts)?,
    })
}

// The contribution of a content area of these sizes, with so much around it.
fn measure(content: Intrinsic, around: i64) -> FragmentKind
    requires content { IsContent content }
    requires around { unsigned_abs around ≤ 2 ^ 35 }
    ensures { kind_of result ≡ kinds.measure (content.min +ℤ around) (content.max +ℤ around) }
{
    FragmentKind::Measure {
        min: content.min + around,
        max: content.max + around,
    }
}

// The sides of the border box from which the content area is told.
fn near_inline(atom: bool) -> FlowSide
    ensures { result ≡ rule.near_inline atom }
{
    if atom {
        FlowSide::LineLeft
    } else {
        FlowSide::InlineStart
    }
}

fn near_block(atom: bool) -> FlowSide
    ensures { result ≡ rule.near_block atom }
{
    if atom {
        FlowSide::LineOver
    } else {
        FlowSide::BlockStart
    }
}
