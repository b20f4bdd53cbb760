//! A page of one box, and what it is turned to.

ghost use Rattle.std.specs.Prelude.{IfOk};
ghost use Rattle.place_map.specs.Near.{AreNearParts};
ghost use Rattle.place_map.specs.Placed.{placed_of};
ghost use Rattle.wm_units.specs.View.{IsView};

use fragment_types::{BoxName, BoxPart, FragmentKind};
use margin_collapse::Margins;
use page_turn::turn;
use place_map::{Placed, PlacedPart};
use std::alloc::{AllocError, Global};
use std::rc::Rc;
use std::test::*;
use wm_modes::{Direction, FlowRect, Rect, WritingMode};
use wm_units::View;

const VIEW: View = View {
    inline: 12_800,
    block: 6_400,
};

const NO_MARGINS: Margins = Margins {
    positive: 0,
    negative: 0,
};

const NAME: BoxName = BoxName {
    node: 0,
    ordinal: 0,
};

/// 1 px from line-left and 2 px from block-start, 20 px by 10 px.
const FLOW: Rect = Rect {
    x: 64,
    y: 128,
    w: 1_280,
    h: 640,
};

/// In vertical-rl line-left is the top and block-start the right.
const VERTICAL: Rect = Rect {
    x: 5_632,
    y: 64,
    w: 640,
    h: 1_280,
};

/// In sideways-lr line-left is the bottom and block-start the left.
const SIDEWAYS: Rect = Rect {
    x: 128,
    y: 11_456,
    w: 640,
    h: 1_280,
};

fn flow(alloc: Global) -> Result<Placed, AllocError>
    ensures view { IfOk result (λ placed. IsView placed.view) }
    ensures near { IfOk result (λ placed. AreNearParts (placed_of placed).parts) }
{
    let part = BoxPart {
        mode: WritingMode::HorizontalTb,
        dir: Direction::Ltr,
        content: FlowRect {
            i: 0,
            b: 0,
            inline: 1_280,
            block: 640,
        },
        definite: None,
        start: NO_MARGINS,
        end: NO_MARGINS,
        through: false,
    };
    Ok(Placed {
        view: VIEW,
        root: PlacedPart::new(
            NAME,
            FLOW,
            FragmentKind::Box(Rc::new(alloc, part)?),
            Vec::new(alloc),
        ),
    })
}

#[test]
fn pages_are_turned(rt: HostRuntime) -> Result<(), Fail> {
    let flow = flow(rt.alloc())?;
    let vertical = turn(rt.alloc(), &flow, WritingMode::VerticalRl)?;
    assert_eq!(rt; vertical.root.rect(), VERTICAL);
    assert_eq!(rt; vertical.mode(), WritingMode::VerticalRl);
    let sideways = turn(rt.alloc(), &flow, WritingMode::SidewaysLr)?;
    assert_eq!(rt; sideways.root.rect(), SIDEWAYS);
    assert_eq!(rt; sideways.mode(), WritingMode::SidewaysLr);
    Ok(())
}
