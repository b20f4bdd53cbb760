//! A page: the tree of fragments with rectangles of the page.

ghost use Rattle.std.specs.Prelude.{◌≡◌};
ghost use Rattle.fragment_types.specs.Fragment.{kind_of};
ghost use Rattle.place_map.specs.Bound.{AreIn, IsNoWider};
ghost use Rattle.place_map.specs.Frame as rule;
ghost use Rattle.place_map.specs.Near.{HasEdges};
ghost use Rattle.place_map.specs.Placed.{before, direction_of, mode_of, none, parts_of, placed_of};

use crate::bound::Bound;
use crate::frame::{page_of, root_direction, root_mode};
use fragment_types::{BoxName, FragmentKind};
use std::marker::Model;
use wm_modes::{Direction, Rect, WritingMode};
use wm_units::View;

/// A fragment on the page: its name and kind as in the flow, its rectangle in units of 1/64 px from the page's left and top
/// edges, and those inside it. It knows what all of them lie in.
#[derive(Debug, Drop)]
pub struct PlacedPart {
    name: BoxName,
    rect: Rect,
    kind: FragmentKind,
    children: PlacedParts,
    bound: Bound,
}

/// Fragments on the page in order.
pub type PlacedParts = Vec<PlacedPart>;

impl Model for PlacedPart {
    ghost use Rattle.std.specs.Coded.{codes};
    ghost use Rattle.std.proofs.Common.{arith};
    ghost use Rattle.fragment_types.specs.Fragment.{kind_of};
    ghost use Rattle.place_map.specs.Bound.{AreIn};
    ghost use Rattle.place_map.specs.PartCode.{parts_code};
    ghost use Rattle.place_map.specs.Parts.{Part, count, none, part, parts_of};
    ghost use Rattle.place_map.specs.PartSizes.{most_below};

    ghost Value = { Part };

    ghost coded = { Prim.hlevel (codes, parts_code (Prim.hlevel codes)) };

    ghost view = { λ p. record { name = p.name; rect = p.rect; kind = kind_of p.kind; inner = parts_of p.children.items } };

    // the fragment and all inside it lie in its bound
    ghost invariant = { λ p. AreIn p.bound (part p.name p.rect (kind_of p.kind) (parts_of p.children.items) none) };

    ghost size = { λ p. count p.inner };

    ghost size_decreases = { λ p _. Prim.omega (arith, most_below p.children.items) };
}

impl PlacedPart {
    /// A fragment with this name, rectangle and kind, and those inside it. The right and the bottom edge of the rectangle are
    /// numbers of 64 bits. It takes a time by the number of children.
    pub fn new(name: BoxName, rect: Rect, kind: FragmentKind, children: PlacedParts) -> PlacedPart
        requires edges { HasEdges rect }
        ensures { result ≡ record { name = name; rect = rect; kind = kind_of kind; inner = parts_of children.items } }
    {
        let bound = bound_of(Bound::of_fragment(name.node, rect), &children);
        PlacedPart {
            name,
            rect,
            kind,
            children,
            bound,
        }
    }

    /// Its name, as in the flow.
    #[inline(always)]
    pub fn name(&self) -> BoxName
        ensures { result ≡ self.now.name }
    {
        self.name
    }

    /// Its rectangle, in units of 1/64 px from the page's left and top edges.
    #[inline(always)]
    pub fn rect(&self) -> Rect
        ensures { result ≡ self.now.rect }
    {
        self.rect
    }

    /// What it is of, as in the flow.
    #[inline(always)]
    pub fn kind(&self) -> &FragmentKind
        ensures { kind_of result.now ≡ self.now.kind }
    {
        &self.kind
    }

    /// Those inside it, in order.
    #[inline(always)]
    pub fn children(&self) -> &[PlacedPart]
        ensures { parts_of result.now ≡ self.now.inner }
    {
        &self.children
    }

    /// What it and all inside it lie in.
    #[inline(always)]
    pub fn bound(&self) -> &Bound
        ensures { AreIn result.now (before self.now none) }
    {
        &self.bound
    }
}

// A bound of all that lies in a bound, and of these fragments with all inside them.
fn bound_of(own: Bound, parts: &[PlacedPart]) -> Bound
    ensures own { IsNoWider own result }
    ensures parts { AreIn result (parts_of parts.now) }
{
    let mut bound = own;
    for part in parts {
        bound = bound.joined(part.bound());
    }
    bound
}

/// A page: the view, in the root's mode, and the root's box with all that stands inside it.
#[derive(Debug, Drop)]
pub struct Placed {
    pub view: View,
    pub root: PlacedPart,
}

impl Placed {
    /// The mode of the root.
    pub fn mode(&self) -> WritingMode
        ensures { result ≡ mode_of (placed_of self.now) }
    {
        root_mode(self.root.kind())
    }

    /// The used direction of the root.
    pub fn direction(&self) -> Direction
        ensures { result ≡ direction_of (placed_of self.now) }
    {
        root_direction(self.root.kind())
    }

    /// The whole page, whose width and height are the view's sizes in the root's mode.
    pub fn page(&self) -> Rect
        ensures { result ≡ rule.page_of self.now.view (mode_of (placed_of self.now)) }
    {
        page_of(self.view, self.mode())
    }
}
