//! The widest of the pieces that a paragraph is cut into (CSS 2, 10.3.5).

ghost use Rattle.std.specs.Prelude.{◌≡◌, ◌≤◌, ◌+◌, ◌^◌, pos};
ghost use Rattle.std.specs.Int.{int_max};
ghost use Rattle.line_fill.specs.Item.{lengths_of};
ghost use Rattle.line_fill.specs.Widest.{begun, after, joined, cut, span_of};

use crate::FillItem;

// The widest of some pieces, of which the last still goes on.
#[derive(Clone, Copy)]
pub(crate) struct Widest {
    // The greatest width of the pieces before it, at least 0.
    most: i64,
    // The last one's width, without the spaces that hang at its end.
    width: i64,
    // What these advance by.
    hanging: i64,
}

impl Widest {
    pub(crate) fn begin() -> Widest
        ensures { result ≡ begun }
    {
        Widest {
            most: 0,
            width: 0,
            hanging: 0,
        }
    }

    // With one item more, behind which the piece ends or not.
    pub(crate) fn after(self, item: FillItem, ends: bool) -> Widest
        requires { span_of self + lengths_of item ≤ 2 ^ 60 }
        ensures value { result ≡ after self item ends }
        ensures near { span_of result ≤ span_of self + lengths_of item }
    {
        let piece = self.joined(item);
        if ends { piece.cut() } else { piece }
    }

    fn joined(self, item: FillItem) -> Widest
        requires { span_of self + lengths_of item ≤ 2 ^ 60 }
        ensures value { result ≡ joined self item }
        ensures near { span_of result ≤ span_of self + lengths_of item }
    {
        let edges = item.before + item.after;
        let advances = self.hanging + item.advance;
        if item.space {
            Widest {
                width: self.width + edges,
                hanging: advances,
                ..self
            }
        } else {
            Widest {
                width: self.width + (edges + advances),
                hanging: 0,
                ..self
            }
        }
    }

    fn cut(self) -> Widest
        ensures { result ≡ cut self }
    {
        Widest {
            most: self.width(),
            width: 0,
            hanging: 0,
        }
    }

    // The greatest width, with the last piece's.
    pub(crate) fn width(self) -> i64
        ensures { result ≡ int_max self.most self.width }
    {
        self.most.max(self.width)
    }
}
