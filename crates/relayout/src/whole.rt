//! The layout of a document whose boxes lie in an arena (CSS 2, 9.4 and 10.1).

ghost use Rattle.std.specs.Prelude.{◌≡◌, ◌+◌, ◌≤◌, ◌-◌, ◌^◌, List, IfOk, None, OnOk, Option, Some};
ghost use Rattle.face_api.specs.Faces.{faces_of};
ghost use Rattle.face_api.specs.Table.{Table};
ghost use Rattle.fragment_types.specs.Fragment.{piece_of};
ghost use Rattle.wm_modes.specs.Mode.{is_horizontal};
ghost use Rattle.box_arena.specs.At.{parent_at};
ghost use Rattle.line_place.specs.Spread.{spread};
ghost use Rattle.relayout.specs.Counts.{AreFoundedUnder, ArrangedRise, IsAllKept, TextsRise};
ghost use Rattle.relayout.specs.Flow.{on_page};
ghost use Rattle.relayout.specs.Flowed.{part_of};
ghost use Rattle.relayout.specs.Near.{IsNearLaid};
ghost use Rattle.relayout.specs.Reach.{IsPageView};
ghost use Rattle.relayout.specs.Relayout as rule;
ghost use Rattle.relayout.specs.Relayout.{AreRightUnder, HasTree, IsLayout, IsSteadyUnder, IsView};
ghost use Rattle.relayout.specs.Row.{from_outside};

use crate::edges::side_in;
use crate::flowed::LaidBox;
use crate::flowing::Flow;
use crate::inline::PageView;
use crate::row::{Page, Row};
use crate::sizes::Containing;
use crate::styled::ChildStyle;
use box_arena::{BoxArena, BoxKey, MOST_DEEP};
use box_gen::BoxNode;
use bumpalo::Bump;
use face_api::{Face, Faces};
use fragment_types::{Constraint, Fragment};
use para_prepare::Prepared;
use std::alloc::{AllocError, Global};
use std::sync::ledger::Ledger;
use style_types::Style;
use wm_modes::{FlowRect, FlowSide};
use wm_units::{Steps, View};

// The view of a page with this root.
fn page_of(root: &BoxNode, view: View) -> PageView
    requires { IsView view }
    ensures value { (faces : List (Option Table)) → from_outside faces result ≡ on_page (is_horizontal root.now.style.mode) faces view.inline view.block }
    ensures near { IsPageView result }
{
    if root.style.mode.is_horizontal() {
        PageView {
            across: view.inline,
            down: view.block,
        }
    } else {
        PageView {
            across: view.block,
            down: view.inline,
        }
    }
}

// The root in the view, which has its mode and its direction.
fn in_view(root: &LaidBox, view: View) -> Result<Fragment, AllocError>
    requires view { IsView view }
    requires near { IsNearLaid root.now }
    ensures { IfOk result (λ made. piece_of made ≡ rule.in_view root.now.style view (part_of root.now.fragment)) }
{
    let made = set_in_view(&root.style, &root.fragment, view)?;
    Ok(made)
}

// The fragment of a root of this style in the view.
fn set_in_view(style: &Style, root: &Fragment, view: View) -> Result<Fragment, AllocError>
    requires view { IsView view }
    requires near { IsNearLaid (record { style = style.now; fragment = root.now }) }
    ensures { IfOk result (λ made. piece_of made ≡ rule.in_view style.now view (part_of root.now)) }
{
    let rect = root.rect;
    let start = side_in(style.mode, FlowSide::BlockStart);
    let styled = ChildStyle {
        containing: Containing::of(style),
        style,
        inline: view.inline,
    };
    let made = root.moved_to(FlowRect {
        i: styled.inline_place(rect.inline),
        b: styled.based_style().margin_or_zero(start),
        ..rect
    })?;
    Ok(made)
}

// The row of the root, which stands alone in the view.
fn root_row(root: BoxKey, node: &BoxNode, view: View) -> Row
    ensures { result ≡ rule.root_row root node.now.style view }
{
    Row {
        from: Some(root),
        containing: Containing::of(&node.style),
        c: Constraint {
            inline: Some(view.inline),
            block: Some(view.block),
        },
        depth: MOST_DEEP,
    }
}

/// The layout of the tree of boxes under a root, in a view of these sizes, which are told in the root's mode. What is kept in the arena
/// is used, and all that is laid out is kept, also where memory runs out before the end. The fragment reaches, with all that stands
/// inside it and whichever edges that is measured from, at most 2^60 - 2^50 + 2^37 units of 1/64 px.
pub fn relayout<L: Ledger, M: Ledger>(
    alloc: Global,
    arena: &mut BoxArena<Prepared>,
    root: BoxKey,
    view: View,
    faces: &Faces,
    prepared: &mut Steps<L>,
    arranged: &mut Steps<M>,
) -> Result<Fragment, AllocError>
    requires tree { HasTree arena.old.slots root }
    requires free { parent_at arena.old.slots root ≡ None }
    requires view { IsView view }
    requires right { AreRightUnder (faces_of ⟦<dyn Face as Face>⟧ faces.now) view arena.old.slots root }
    ensures steady { IsSteadyUnder (faces_of ⟦<dyn Face as Face>⟧ faces.now) view arena.old arena.new root }
    ensures near { IfOk result (λ made. spread (piece_of made) ≤ 2 ^ 60 - 2 ^ 50 + 2 ^ 37) }
    ensures layout { IfOk result (λ made. IsLayout (faces_of ⟦<dyn Face as Face>⟧ faces.now) view arena.old.slots root (piece_of made)) }
    ensures prepares { TextsRise arena.old.slots root prepared.old prepared.new }
    ensures arranges { ArrangedRise (faces_of ⟦<dyn Face as Face>⟧ faces.now) view arena.old.slots root arranged.old arranged.new }
    ensures founded { AreFoundedUnder (faces_of ⟦<dyn Face as Face>⟧ faces.now) view arena.old.slots root → AreFoundedUnder (faces_of ⟦<dyn Face as Face>⟧ faces.now) view arena.new.slots root }
    ensures kept { OnOk result (AreFoundedUnder (faces_of ⟦<dyn Face as Face>⟧ faces.now) view arena.old.slots root → IsAllKept (faces_of ⟦<dyn Face as Face>⟧ faces.now) view arena.new.slots root) }
{
    let node = arena.node(root);
    let mut scratch = Bump::new(alloc);
    let page = Page {
        view: page_of(node, view),
        faces,
    };
    let row = root_row(root, node, view);
    let mut flow = Flow {
        arena,
        scratch: &mut scratch,
        texts: prepared,
        arranged,
    };
    let laid = flow.flow(alloc, page, &row)?;
    let made = in_view(&laid[0], view)?;
    Ok(made)
}
