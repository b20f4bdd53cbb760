//! Boxes whose content is all inline (CSS 2, 9.2.1.1 and 9.2.2.1).

ghost use Rattle.std.specs.Prelude.{◌≡◌};
ghost use Rattle.box_gen.specs.Tree.{boxes_of, box, none, inline};
ghost use Rattle.box_gen.specs.Boxes.{anonymous, own_name};
ghost use Rattle.box_gen.specs.Building.{run_of};

use crate::run::Run;
use crate::tree::{BoxNode, BoxTree, Content};
use fragment_types::BoxName;
use style_types::{Display, SharedStyle, Style};

/// The name of a node's own box.
pub fn own_name(number: u32) -> BoxName
    ensures { result ≡ own_name number }
{
    BoxName {
        node: number,
        ordinal: 0,
    }
}

/// A box whose content is all inline. Most paragraphs have one item, so no room is kept for more.
pub fn paragraph(name: BoxName, style: SharedStyle, run: Run) -> BoxTree
    ensures { boxes_of result ≡ box name style (inline (run_of run).items) (run_of run).atoms none }
{
    let Run {
        mut items,
        atoms,
        ..
    } = run;
    items.shrink_to_fit();
    BoxTree {
        node: BoxNode {
            name,
            style,
            content: Content::Inline(items),
        },
        children: atoms,
    }
}

/// An anonymous block inherits what is inherited, takes the `unicode-bidi` of its container (CSS Writing Modes 4,
/// 2.2), and is initial else.
pub fn anonymous_style(container: &Style) -> Style
    ensures { result ≡ anonymous container.now }
{
    Style {
        display: Display::Block,
        mode: container.mode,
        direction: container.direction,
        orientation: container.orientation,
        combine: container.combine,
        bidi: container.bidi,
        font_size: container.font_size,
        face: container.face,
        line_height: container.line_height,
        align: container.align,
        ..Style::initial()
    }
}
