//! Counters of steps, which have no bytes.

ghost use Rattle.std.specs.Prelude.{◌≡◌, ◌+◌, ◌<◌};

use std::marker::Brand;
use std::sync::ledger::{Blank, Ledger};
use wm_units::Steps;

// Two steps, as a caller's contract sees them.
fn tick_twice<L: Ledger>(steps: &mut Steps<L>)
    ensures { steps.new ≡ steps.old + 2 }
{
    steps.tick();
    steps.tick();
}

// The bytes of a counter after two steps.
fn counted<L: Ledger>(blank: Blank) -> usize
    requires name { blank.name ≡ L.name }
    requires parts { blank.parts ≡ L.parts }
    requires some { 0 < blank.parts }
{
    let mut steps = Steps::<L>::open(blank);
    tick_twice(&mut steps);
    size_of::<Steps<L>>()
}

#[test]
fn a_counter_has_no_bytes(rt: HostRuntime) {
    assert_eq!(rt; counted::<Brand>(Blank::new(1)), 0);
}
