//! Whether two boxes are one: in name, style and content.

ghost use Rattle.std.specs.Prelude.{◌≡◌, IsTrue};
ghost use Rattle.fragment_types.specs.Item.{entries_of, entry_of};
ghost use Rattle.box_gen.specs.Tree.{content_of};
ghost use Rattle.box_arena.specs.At.{node_of};
ghost use Rattle.box_gen.specs.Places.{RunAlike};

use box_gen::{BoxNode, Content};
use fragment_types::{BoxName, Item};
use style_types::{Insets, SideSizes, SideWidths, Size, Style};

/// Whether two boxes have one name, one style and one content.
pub(crate) fn are_equal(one: &BoxNode, other: &BoxNode) -> bool
    ensures equal { IsTrue result → node_of one.now ≡ node_of other.now }
    ensures same { node_of one.now ≡ node_of other.now → IsTrue result }
{
    equal_name(one.name, other.name)
        && equal_style(&one.style, &other.style)
        && equal_content(&one.content, &other.content)
}

// Whether two boxes hold the same.
fn equal_content(one: &Content, other: &Content) -> bool
    ensures equal { IsTrue result → content_of one.now ≡ content_of other.now }
    ensures same { content_of one.now ≡ content_of other.now → IsTrue result }
{
    match (one, other) {
        (Content::Blocks, Content::Blocks) => true,
        (Content::Inline(one), Content::Inline(other)) => equal_items(one, other),
        (Content::Blocks, Content::Inline(_)) | (Content::Inline(_), Content::Blocks) => false,
    }
}

// Whether two paragraphs have the same items.
fn equal_items(one: &[Item], other: &[Item]) -> bool
    ensures equal { IsTrue result → entries_of one.now ≡ entries_of other.now }
    ensures same { entries_of one.now ≡ entries_of other.now → IsTrue result }
{
    if one.len() != other.len() {
        return false;
    }
    for (place, item) in one.iter().enumerate() {
        if !equal_item(item, &other[place]) {
            return false;
        }
    }
    true
}

// Whether two items of paragraphs are one.
fn equal_item(one: &Item, other: &Item) -> bool
    ensures equal { IsTrue result → entry_of one.now ≡ entry_of other.now }
    ensures same { entry_of one.now ≡ entry_of other.now → IsTrue result }
{
    match (one, other) {
        (
            Item::Text { node, text, style },
            Item::Text {
                node: other_node,
                text: other_text,
                style: other_style,
            },
        ) => equal_node_number(*node, *other_node)
            && equal_text(text, other_text)
            && equal_style(style, other_style),
        (
            Item::Open { node, style, opens },
            Item::Open {
                node: other_node,
                style: other_style,
                opens: other_opens,
            },
        ) => equal_node_number(*node, *other_node)
            && equal_edge_flag(*opens, *other_opens)
            && equal_style(style, other_style),
        (
            Item::Close { node, closes },
            Item::Close {
                node: other_node,
                closes: other_closes,
            },
        ) => equal_node_number(*node, *other_node) && equal_edge_flag(*closes, *other_closes),
        (Item::Atom { name }, Item::Atom { name: other_name }) => equal_name(*name, *other_name),
        (Item::Break { node }, Item::Break { node: other_node }) => equal_node_number(
            *node,
            *other_node,
        ),
        (
            Item::Text { .. }
            | Item::Open { .. }
            | Item::Close { .. }
            | Item::Atom { .. }
            | Item::Break { .. },
            _,
        ) => false,
    }
}

fn equal_node_number(one: u32, other: u32) -> bool
    ensures equal { IsTrue result → one ≡ other }
    ensures same { one ≡ other → IsTrue result }
{
    one == other
}

fn equal_edge_flag(one: bool, other: bool) -> bool
    ensures equal { IsTrue result → one ≡ other }
    ensures same { one ≡ other → IsTrue result }
{
    one == other
}

fn equal_name(one: BoxName, other: BoxName) -> bool
    ensures equal { IsTrue result → one ≡ other }
    ensures same { one ≡ other → IsTrue result }
{
    one == other
}

fn equal_text(one: &str, other: &str) -> bool
    ensures equal { IsTrue result → one.now ≡ other.now }
    ensures same { one.now ≡ other.now → IsTrue result }
{
    one == other
}

fn equal_style(one: &Style, other: &Style) -> bool
    ensures equal { IsTrue result → one.now ≡ other.now }
    ensures same { one.now ≡ other.now → IsTrue result }
{
    equal_display_and_lines(one, other)
        && equal_text_style(one, other)
        && equal_font(one, other)
        && equal_extents(one, other)
        && equal_limits(one, other)
        && equal_box_edges(one, other)
        && equal_position(one, other)
}

/// Whether the lines of boxes of two styles run alike.
pub(crate) fn equal_lines(one: &Style, other: &Style) -> bool
    ensures equal { IsTrue result → RunAlike one.now other.now }
    ensures same { RunAlike one.now other.now → IsTrue result }
{
    one.mode == other.mode
        && one.direction == other.direction
        && one.orientation == other.orientation
}

fn equal_display_and_lines(one: &Style, other: &Style) -> bool
    ensures display { IsTrue result → one.now.display ≡ other.now.display }
    ensures mode { IsTrue result → one.now.mode ≡ other.now.mode }
    ensures direction { IsTrue result → one.now.direction ≡ other.now.direction }
    ensures orientation { IsTrue result → one.now.orientation ≡ other.now.orientation }
    ensures same { one.now ≡ other.now → IsTrue result }
{
    one.display == other.display && equal_lines(one, other)
}

fn equal_text_style(one: &Style, other: &Style) -> bool
    ensures combine { IsTrue result → one.now.combine ≡ other.now.combine }
    ensures bidi { IsTrue result → one.now.bidi ≡ other.now.bidi }
    ensures align { IsTrue result → one.now.align ≡ other.now.align }
    ensures same { one.now ≡ other.now → IsTrue result }
{
    one.combine == other.combine && one.bidi == other.bidi && one.align == other.align
}

fn equal_font(one: &Style, other: &Style) -> bool
    ensures font_size { IsTrue result → one.now.font_size ≡ other.now.font_size }
    ensures face { IsTrue result → one.now.face ≡ other.now.face }
    ensures line_height { IsTrue result → one.now.line_height ≡ other.now.line_height }
    ensures shift { IsTrue result → one.now.shift ≡ other.now.shift }
    ensures same { one.now ≡ other.now → IsTrue result }
{
    one.font_size == other.font_size
        && one.face == other.face
        && one.line_height == other.line_height
        && one.shift == other.shift
}

fn equal_extents(one: &Style, other: &Style) -> bool
    ensures width { IsTrue result → one.now.width ≡ other.now.width }
    ensures height { IsTrue result → one.now.height ≡ other.now.height }
    ensures same { one.now ≡ other.now → IsTrue result }
{
    equal_size(one.width, other.width) && equal_size(one.height, other.height)
}

fn equal_limits(one: &Style, other: &Style) -> bool
    ensures min_width { IsTrue result → one.now.min_width ≡ other.now.min_width }
    ensures min_height { IsTrue result → one.now.min_height ≡ other.now.min_height }
    ensures max_width { IsTrue result → one.now.max_width ≡ other.now.max_width }
    ensures max_height { IsTrue result → one.now.max_height ≡ other.now.max_height }
    ensures same { one.now ≡ other.now → IsTrue result }
{
    equal_size(one.min_width, other.min_width)
        && equal_size(one.min_height, other.min_height)
        && equal_size(one.max_width, other.max_width)
        && equal_size(one.max_height, other.max_height)
}

fn equal_box_edges(one: &Style, other: &Style) -> bool
    ensures margin { IsTrue result → one.now.margin ≡ other.now.margin }
    ensures padding { IsTrue result → one.now.padding ≡ other.now.padding }
    ensures border { IsTrue result → one.now.border ≡ other.now.border }
    ensures same { one.now ≡ other.now → IsTrue result }
{
    equal_sides(one.margin, other.margin)
        && equal_sides(one.padding, other.padding)
        && equal_widths(one.border, other.border)
}

fn equal_position(one: &Style, other: &Style) -> bool
    ensures relative { IsTrue result → one.now.relative ≡ other.now.relative }
    ensures insets { IsTrue result → one.now.insets ≡ other.now.insets }
    ensures same { one.now ≡ other.now → IsTrue result }
{
    one.relative == other.relative && equal_insets(one.insets, other.insets)
}

fn equal_size(one: Size, other: Size) -> bool
    ensures equal { IsTrue result → one ≡ other }
    ensures same { one ≡ other → IsTrue result }
{
    one == other
}

fn equal_sides(one: SideSizes, other: SideSizes) -> bool
    ensures equal { IsTrue result → one ≡ other }
    ensures same { one ≡ other → IsTrue result }
{
    equal_size(one.top, other.top)
        && equal_size(one.right, other.right)
        && equal_size(one.bottom, other.bottom)
        && equal_size(one.left, other.left)
}

fn equal_insets(one: Insets, other: Insets) -> bool
    ensures equal { IsTrue result → one ≡ other }
    ensures same { one ≡ other → IsTrue result }
{
    equal_size(one.top, other.top)
        && equal_size(one.right, other.right)
        && equal_size(one.bottom, other.bottom)
        && equal_size(one.left, other.left)
}

fn equal_widths(one: SideWidths, other: SideWidths) -> bool
    ensures equal { IsTrue result → one ≡ other }
    ensures same { one ≡ other → IsTrue result }
{
    one.top == other.top
        && one.right == other.right
        && one.bottom == other.bottom
        && one.left == other.left
}
