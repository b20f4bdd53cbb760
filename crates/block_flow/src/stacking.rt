//! The stacking of children (CSS 2, 8.3.1 and 9.4.1).

ghost use Rattle.std.specs.Prelude.{◌≡◌, ◌+◌, ◌≤◌, ◌^◌, List, length, IfOk, sum_by};
ghost use Rattle.block_flow.specs.Children.{Child, AreChildren, lengths_of};
ghost use Rattle.block_flow.specs.Stacked.{IsStackOf, IsWithin};

use crate::reached::Reached;
use crate::{ChildBox, ParentEdges, Stack};
use std::alloc::{AllocError, Global};
use std::sync::ledger::Ledger;
use wm_units::Steps;

/// Stacks the children of a container on its block axis (CSS 2, 8.3.1 and 9.4.1), and counts one step. The
/// lengths of all children, without their signs, sum to at most 2^60.
pub fn stack<M: Ledger>(
    alloc: Global,
    parent: ParentEdges,
    children: &[ChildBox],
    arranged: &mut Steps<M>,
) -> Result<Stack, AllocError>
    requires { sum_by lengths_of children.now ≤ 2 ^ 60 }
    ensures ticks { arranged.new ≡ arranged.old + 1 }
    ensures stack { IfOk result (λ stack. (list : List Child) → AreChildren children.now list → IsStackOf parent list stack) }
    ensures count { IfOk result (λ stack. length stack.places ≡ length children.now) }
    ensures within { IfOk result (λ stack. IsWithin (sum_by lengths_of children.now) stack) }
{
    arranged.tick();
    let mut places = Vec::with_capacity(alloc, children.len())?;
    let mut reached = Reached::begin(parent.start_joins);
    for child in children {
        places.push(reached.place(*child))?;
        reached = reached.after(*child);
    }
    Ok(Stack {
        places,
        extent: reached.extent(parent.end_joins),
        start: reached.start(),
        end: reached.handed(parent.end_joins),
        through: reached.is_through(),
    })
}
