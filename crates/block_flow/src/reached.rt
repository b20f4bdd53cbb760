//! How far the stacking of children has come (CSS 2, 8.3.1 and 9.4.1).

ghost use Rattle.std.specs.Prelude.{◌≡◌, ◌+◌, ◌≤◌, ◌^◌, ℤ, pos, ◌≤ℤ◌, ◌&&◌, true, List, ◌++◌, unsigned_abs};
ghost use Rattle.margin_collapse.specs.Margins.{collapsed};
ghost use Rattle.margin_collapse.specs.Pairs.{IsPairOf};
ghost use Rattle.block_flow.specs.Children.{Child, StandsFor, lengths_of, margin_lengths};
ghost use Rattle.block_flow.specs.Stacking.{Progress, begin, after, place_in, joined_margins, handed, extent};
ghost use Rattle.block_flow.specs.Reached.{IsReached, span_of};

use crate::ChildBox;
use margin_collapse::Margins;

// How far the stacking of children has come. The lists of adjoining margins are pairs here.
#[derive(Clone, Copy)]
pub(crate) struct Reached {
    // Where the last child ends that isn't collapsed through, at first the container's content edge.
    y: i64,
    // The margins since then.
    pending: Margins,
    // Whether they adjoin the container's own start.
    joined: bool,
    // The children's margins that adjoin the container's own start.
    start: Margins,
    // Whether all children so far are collapsed through.
    through: bool,
}

impl Reached {
    // Before the first child.
    pub(crate) fn begin(start_joins: bool) -> Reached
        ensures reached { IsReached result (begin start_joins) }
        ensures span { span_of result ≡ 0 }
        ensures start { margin_lengths result.start ≡ 0 }
        ensures through { result.through ≡ true }
    {
        Reached {
            y: 0,
            pending: Margins::none(),
            joined: start_joins,
            start: Margins::none(),
            through: true,
        }
    }

    // Where the border box of the next child stands. Its end margins don't count for it, though they adjoin
    // those at its start where it is collapsed through.
    pub(crate) fn place(self, child: ChildBox) -> i64
        requires { span_of self + lengths_of child ≤ 2 ^ 60 }
        ensures place { (progress : Progress) (next : Child) → IsReached self progress → StandsFor child next → result ≡ place_in progress next }
        ensures near { unsigned_abs result ≤ span_of self + margin_lengths child.start }
    {
        if self.joined {
            0
        } else {
            self.y + self.gap(child)
        }
    }

    // What the margins before the next child collapse to.
    #[tactic(auto, using(crate::proofs::Steps::gap_span))]
    fn gap(self, child: ChildBox) -> i64
        requires { span_of self + lengths_of child ≤ 2 ^ 60 }
        ensures gap { (pending start : List ℤ) → IsPairOf self.pending pending → IsPairOf child.start start → result ≡ collapsed (pending ++ start) }
        ensures near { unsigned_abs result ≤ margin_lengths self.pending + margin_lengths child.start }
    {
        self.pending.join(child.start).value()
    }

    // The children's margins at the container's own start, with these of the next child.
    fn start_with(self, margins: Margins) -> Margins
        ensures list { (progress : Progress) (list : List ℤ) → IsReached self progress → IsPairOf margins list → IsPairOf result (joined_margins progress list) }
        ensures near { margin_lengths result ≤ margin_lengths self.start + margin_lengths margins }
    {
        if self.joined {
            self.start.join(margins)
        } else {
            self.start
        }
    }

    // After the next child. All margins of one that is collapsed through adjoin those that are pending.
    pub(crate) fn after(self, child: ChildBox) -> Reached
        requires { span_of self + lengths_of child ≤ 2 ^ 60 }
        ensures reached { (progress : Progress) (next : Child) → IsReached self progress → StandsFor child next → IsReached result (after progress next) }
        ensures span { span_of result ≤ span_of self + lengths_of child }
        ensures start { margin_lengths result.start ≤ margin_lengths self.start + lengths_of child }
        ensures through { result.through ≡ self.through && child.through }
    {
        let margins = child.start.join(child.end);
        if child.through {
            Reached {
                pending: self.pending.join(margins),
                start: self.start_with(margins),
                ..self
            }
        } else {
            Reached {
                y: self.place(child) + child.size,
                pending: child.end,
                joined: false,
                start: self.start_with(child.start),
                through: false,
            }
        }
    }

    // The block extent of all children. Margins that are handed outwards don't count.
    pub(crate) fn extent(self, end_joins: bool) -> i64
        requires { span_of self ≤ 2 ^ 60 }
        ensures extent { (progress : Progress) → IsReached self progress → result ≡ extent end_joins progress }
        ensures low { pos 0 ≤ℤ result }
        ensures near { unsigned_abs result ≤ span_of self }
    {
        if end_joins {
            self.y.max(0)
        } else if self.joined {
            0
        } else {
            (self.y + self.pending.value()).max(0)
        }
    }

    // The margins that all children hand outwards at the container's end.
    pub(crate) fn handed(self, end_joins: bool) -> Margins
        ensures list { (progress : Progress) → IsReached self progress → IsPairOf result (handed end_joins progress) }
        ensures near { margin_lengths result ≤ span_of self }
    {
        if end_joins {
            self.pending
        } else {
            Margins::none()
        }
    }

    pub(crate) fn start(self) -> Margins
        ensures { result ≡ self.start }
    {
        self.start
    }

    pub(crate) fn is_through(self) -> bool
        ensures { result ≡ self.through }
    {
        self.through
    }
}
