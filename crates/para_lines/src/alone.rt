//! The items of a paragraph that is one item, as most are (CSS 2, 9.4.2). No inline box stands round them, so all that lines need of
//! them is told by what is prepared.

ghost use Rattle.std.specs.Prelude.{◌≡◌, true, map};
ghost use Rattle.std.proofs.Props.{props};
ghost use Rattle.para_lines.specs.Alone.{GoForward, fill_alone};
ghost use Rattle.para_lines.specs.Standing.{plain};

use crate::filling::is_space;
use crate::standing::{Standing, Standings};
use line_fill::{FillItem, FillSource};

/// Items of such a paragraph, from which lines are filled: no box begins before one or ends behind it; and whether they are known
/// to go forward, as text does.
#[derive(Clone, Copy)]
pub(crate) struct Alone<'a> {
    pub(crate) standings: &'a Standings<'a>,
    pub(crate) forward: bool,

    ghost goes: { forward ≡ true → GoForward standings.now } by { Prim.hlevel props },
}

impl FillSource for Alone<'_> {
    ghost items = { λ alone. map fill_alone alone.standings.now };

    #[inline(always)]
    fn count(&self) -> usize {
        self.standings.count()
    }

    #[inline(always)]
    fn item(&self, place: usize) -> FillItem {
        fill_alone(&self.standings.at(place))
    }

    #[inline(always)]
    fn goes_forward(&self) -> bool {
        self.forward
    }
}

#[inline(always)]
fn fill_alone(standing: &Standing) -> FillItem
    ensures { result ≡ fill_alone (plain standing.now) }
{
    FillItem {
        advance: standing.extent,
        before: 0,
        after: 0,
        space: is_space(&standing.item.what),
        end: standing.end,
    }
}
