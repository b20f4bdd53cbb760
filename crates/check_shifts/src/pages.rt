//! A page of one box, and where it is shifted to.

ghost use Rattle.std.specs.Prelude.{IfOk};
ghost use Rattle.place_map.specs.Near.{AreNearParts};
ghost use Rattle.place_map.specs.Placed.{placed_of};
ghost use Rattle.rel_shift.specs.Bounds.{AreSized};

use fragment_types::{BoxName, BoxPart, FragmentKind};
use margin_collapse::Margins;
use place_map::{Placed, PlacedPart};
use rel_shift::shift;
use std::alloc::{AllocError, Global};
use std::rc::Rc;
use std::test::*;
use style_types::{Insets, Position, Size};
use wm_modes::{Direction, FlowRect, Rect, WritingMode};
use wm_units::View;

const VIEW: View = View {
    inline: 12_800,
    block: 6_400,
};

const NO_MARGINS: Margins = Margins {
    positive: 0,
    negative: 0,
};

const NAME: BoxName = BoxName {
    node: 0,
    ordinal: 0,
};

/// Where the box stands: as wide as the view, at its top.
const WHOLE: Rect = Rect {
    x: 0,
    y: 0,
    w: 12_800,
    h: 640,
};

/// 5 px down, and a tenth of the view to the right.
const INSETS: Insets = Insets {
    top: Size::Length(320),
    right: Size::Auto,
    bottom: Size::Auto,
    left: Size::Percent(1_000),
};

const ROOT: Position = Position {
    node: 0,
    parent: None,
    holder: None,
    insets: Some(INSETS),
};

fn page(alloc: Global) -> Result<Placed, AllocError>
    ensures near { IfOk result (λ placed. AreNearParts (placed_of placed).parts) }
    ensures sized { IfOk result (λ placed. AreSized (placed_of placed)) }
{
    let part = BoxPart {
        mode: WritingMode::HorizontalTb,
        dir: Direction::Ltr,
        content: FlowRect {
            i: 0,
            b: 0,
            inline: 12_800,
            block: 640,
        },
        definite: None,
        start: NO_MARGINS,
        end: NO_MARGINS,
        through: false,
    };
    Ok(Placed {
        view: VIEW,
        root: PlacedPart::new(
            NAME,
            WHOLE,
            FragmentKind::Box(Rc::new(alloc, part)?),
            Vec::new(alloc),
        ),
    })
}

#[test]
fn pages_are_shifted(rt: HostRuntime) -> Result<(), Fail> {
    let placed = page(rt.alloc())?;
    let mut positions = Vec::new(rt.alloc());
    positions.push(ROOT)?;
    let shifted = shift(rt.alloc(), &placed, &positions)?;
    let due = Rect {
        x: 1_280,
        y: 320,
        w: 12_800,
        h: 640,
    };
    assert_eq!(rt; shifted.root.rect(), due);
    Ok(())
}
