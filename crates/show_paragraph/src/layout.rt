//! The layout of one paragraph.

ghost use Rattle.std.specs.Prelude.{◌≡◌, ◌≤◌, All, IfOk, length};
ghost use Rattle.fragment_types.specs.Item.{entries_of};
ghost use Rattle.style_types.specs.Style.{IsBounded};
ghost use Rattle.para_prepare.specs.Limits.{HasFontSize, text_bytes};
ghost use Rattle.para_prepare.specs.Preparation.{atoms_of};
ghost use Rattle.para_lines.specs.Boxes.{HasBounds};

use bumpalo::Bump;
use face_api::Faces;
use fragment_types::{BoxName, Fragments, Item, Items};
use letters::SharedText;
use para_lines::{Container, paragraph_lines};
use para_prepare::{Paragraph, prepare};
use std::alloc::{AllocError, Global};
use std::sync::ledger::Ledger;
use style_types::{SharedStyle, Style};
use wm_modes::{Direction, WritingMode};
use wm_units::Steps;

// 16 px, in units of 1/64 px.
const EM: i64 = 1024;

/// The lines of the paragraph, which go from top to bottom, the first at the right: ten characters fit on each.
pub(crate) fn lay_out<L: Ledger, M: Ledger>(
    alloc: Global,
    faces: &Faces,
    prepared: &mut Steps<L>,
    arranged: &mut Steps<M>,
) -> Result<Fragments, AllocError> {
    let style = Style {
        mode: WritingMode::VerticalRl,
        font_size: EM,
        ..Style::initial()
    };
    let items = items(alloc, style)?;
    let paragraph = Paragraph {
        base: Some(0),
        style,
        items,
    };
    let mut arena = Bump::new(alloc);
    let ready = prepare(alloc, &paragraph, faces, &mut arena, prepared)?;
    let container = Container {
        name: BoxName {
            node: 0,
            ordinal: 0,
        },
        style,
        size: 10 * EM,
    };
    let lines = paragraph_lines(
        alloc,
        &paragraph.items,
        &ready,
        &container,
        &[],
        faces,
        arranged,
    )?;
    Ok(lines)
}

// Japanese and English text, and some Hebrew in a box of its own, which goes from right to left.
fn items(alloc: Global, style: Style) -> Result<Items, AllocError>
    requires style { IsBounded style }
    ensures count { IfOk result (λ made. length made.items ≤ 5) }
    ensures bytes { IfOk result (λ made. text_bytes (entries_of made.items) ≤ 100) }
    ensures sizes { IfOk result (λ made. All HasFontSize (entries_of made.items)) }
    ensures bounds { IfOk result (λ made. All HasBounds (entries_of made.items)) }
    ensures atoms { IfOk result (λ made. atoms_of (entries_of made.items) ≡ 0) }
{
    let hebrew = Style {
        direction: Direction::Rtl,
        ..style
    };
    let mut items = Vec::new(alloc);
    items.push(Item::Text {
        node: 1,
        style: SharedStyle::new(alloc, style)?,
        text: SharedText::new(alloc, "縦書きの「text」は".to_string(alloc)?)?,
    })?;
    items.push(Item::Open {
        node: 2,
        style: SharedStyle::new(alloc, hebrew)?,
        opens: true,
    })?;
    items.push(Item::Text {
        node: 3,
        style: SharedStyle::new(alloc, hebrew)?,
        text: SharedText::new(alloc, "שלום (2)".to_string(alloc)?)?,
    })?;
    items.push(Item::Close {
        node: 2,
        closes: true,
    })?;
    items.push(Item::Text {
        node: 4,
        style: SharedStyle::new(alloc, style)?,
        text: SharedText::new(alloc, "も続く。".to_string(alloc)?)?,
    })?;
    Ok(items)
}
