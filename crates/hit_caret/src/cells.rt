//! The cells of a page: what its units of text take of it.

ghost use Rattle.std.specs.Prelude.{◌≡◌, ◌+ℤ◌};
ghost use Rattle.hit_caret.specs.Carets as carets;
ghost use Rattle.hit_caret.specs.Cells as spec;
ghost use Rattle.hit_caret.specs.Near.{IsDistance, IsNearCell};
ghost use Rattle.wm_modes.specs.Near.{IsNear};

use crate::rects::{edge, extent_from, part_from};
use fragment_types::RunUnit;
use wm_modes::{Direction, FlowSide, Rect, Side, WritingMode, side_of};

/// What a unit of text takes of the page: the text node, the places of the unit's first character there and behind its last,
/// its bidi level, the mode of its line, and its rectangle in units of 1/64 px.
#[derive(Clone, Copy, Debug, PartialEq, Eq)]
pub struct Cell {
    pub node: u32,
    pub first: u32,
    pub end: u32,
    pub level: u8,
    pub mode: WritingMode,
    pub rect: Rect,
}

/// Where a run stands: its text node, its bidi level, the mode of its line and its rectangle.
#[derive(Clone, Copy)]
pub(crate) struct Run {
    pub(crate) node: u32,
    pub(crate) level: u8,
    pub(crate) mode: WritingMode,
    pub(crate) rect: Rect,
}

impl Run {
    /// How much of the run a unit of this extent takes, from this distance from line-left on: no more than is left there.
    pub(crate) fn taken(&self, distance: i64, extent: i64) -> i64
        requires rect { IsNear self.now.rect }
        requires distance { IsDistance distance }
        ensures value { result ≡ spec.taken self.now distance extent }
        ensures extent { IsDistance result }
        ensures next { IsDistance (distance +ℤ result) }
    {
        let line_left = line_side(self.mode, FlowSide::LineLeft);
        let left = extent_from(line_left, &self.rect) - distance;
        extent.min(left).max(0)
    }

    /// The part of its run that a unit takes, from this distance from line-left on.
    pub(crate) fn cell_of(&self, distance: i64, extent: i64, unit: &RunUnit) -> Cell
        requires rect { IsNear self.now.rect }
        requires distance { IsDistance distance }
        requires extent { IsDistance extent }
        ensures value { result ≡ spec.cell_of self.now distance extent unit.now }
        ensures near { IsNearCell result.rect }
    {
        let line_left = line_side(self.mode, FlowSide::LineLeft);
        Cell {
            node: self.node,
            first: unit.first(),
            end: unit.end(),
            level: self.level,
            mode: self.mode,
            rect: part_from(line_left, &self.rect, distance, extent),
        }
    }

    /// The one cell of a combined run.
    pub(crate) fn combined_cell(&self, units: &[RunUnit]) -> Cell
        requires rect { IsNear self.now.rect }
        ensures value { result ≡ spec.combined_cell self.now units.now }
        ensures near { IsNearCell result.rect }
    {
        Cell {
            node: self.node,
            first: first_of(units),
            end: end_of(units),
            level: self.level,
            mode: self.mode,
            rect: self.rect,
        }
    }
}

// The least place at which a unit begins.
fn first_of(units: &[RunUnit]) -> u32
    ensures { result ≡ spec.first_of units.now }
{
    units.iter().map(|unit| unit.first()).min().unwrap_or(0)
}

// The greatest place at which one ends.
fn end_of(units: &[RunUnit]) -> u32
    ensures { result ≡ spec.end_of units.now }
{
    units.iter().map(|unit| unit.end()).max().unwrap_or(0)
}

impl Cell {
    /// The side of the page at which this side of its line is.
    pub(crate) fn side(&self, side: FlowSide) -> Side
        ensures { result ≡ spec.side_of_cell self.now side }
    {
        line_side(self.mode, side)
    }

    /// Its edge where its characters begin, a rectangle without extent along the line.
    pub fn leading_edge(&self) -> Rect
        requires near { IsNearCell self.now.rect }
        ensures { result ≡ carets.leading_edge self.now }
    {
        edge(self.leading(), &self.rect)
    }

    /// Its edge where its characters end, a rectangle without extent along the line.
    pub fn trailing_edge(&self) -> Rect
        requires near { IsNearCell self.now.rect }
        ensures { result ≡ carets.trailing_edge self.now }
    {
        edge(self.trailing(), &self.rect)
    }

    /// The side at which its characters begin.
    pub(crate) fn leading(&self) -> Side
        ensures { result ≡ spec.leading self.now }
    {
        if self.level % 2 == 0 {
            self.side(FlowSide::LineLeft)
        } else {
            self.side(FlowSide::LineRight)
        }
    }

    /// The side at which its characters end.
    pub(crate) fn trailing(&self) -> Side
        ensures { result ≡ spec.trailing self.now }
    {
        if self.level % 2 == 0 {
            self.side(FlowSide::LineRight)
        } else {
            self.side(FlowSide::LineLeft)
        }
    }
}

// The side of the page at which a side of a line is. No direction changes it.
fn line_side(mode: WritingMode, side: FlowSide) -> Side
    ensures { result ≡ spec.line_side mode side }
{
    side_of(mode, Direction::Ltr, side)
}
