//! What the fragments of a part of a page lie in, so that a search of the page can pass over what lies elsewhere.

ghost use Rattle.std.specs.Prelude.{◌≡◌};
ghost use Rattle.place_map.specs.Bound as rule;
ghost use Rattle.place_map.specs.Bound.{IsIn, IsNoWider};
ghost use Rattle.place_map.specs.Near.{HasEdges};

use wm_modes::Rect;

/// The edges of a rectangle of the page that fragments lie in, in units of 1/64 px, and the least and the greatest number of a
/// node that one of them is of.
#[derive(Clone, Copy, Debug)]
pub struct Bound {
    pub left: i64,
    pub top: i64,
    pub right: i64,
    pub bottom: i64,
    pub first: u32,
    pub last: u32,
}

impl Bound {
    /// Whether a point lies in it, in units of 1/64 px from the page's left and top edges. Its right and its bottom edge don't
    /// belong to it.
    #[inline(always)]
    pub fn holds(&self, x: i64, y: i64) -> bool
        ensures { result ≡ rule.holds self.now x y }
    {
        is_between(self.left, self.right, x) && is_between(self.top, self.bottom, y)
    }

    /// Whether a fragment that lies in it can be of this node.
    #[inline(always)]
    pub fn spans(&self, node: u32) -> bool
        ensures { result ≡ rule.spans self.now node }
    {
        self.first <= node && node <= self.last
    }

    /// A bound of a fragment alone, by the edges of its rectangle and the number of its node.
    pub(crate) fn of_fragment(node: u32, rect: Rect) -> Bound
        requires edges { HasEdges rect }
        ensures { IsIn result node rect }
    {
        Bound {
            left: rect.x,
            top: rect.y,
            right: rect.x + rect.w,
            bottom: rect.y + rect.h,
            first: node,
            last: node,
        }
    }

    /// A bound of all that lies in one of two: of each edge and each number the one that is further out.
    pub(crate) fn joined(self, other: &Bound) -> Bound
        ensures own { IsNoWider self result }
        ensures other { IsNoWider other.now result }
    {
        Bound {
            left: self.left.min(other.left),
            top: self.top.min(other.top),
            right: self.right.max(other.right),
            bottom: self.bottom.max(other.bottom),
            first: self.first.min(other.first),
            last: self.last.max(other.last),
        }
    }
}

// Whether a place along an axis lies between a start, which belongs to it, and an end, which doesn't.
#[inline(always)]
fn is_between(start: i64, end: i64, place: i64) -> bool
    ensures { result ≡ rule.is_between start end place }
{
    start <= place && place < end
}
