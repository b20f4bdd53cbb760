//! Laws of one flow in four modes. These functions do nothing: their contracts are the laws.

ghost use Rattle.flow_modes.specs.Asks.{AsksAlike};
ghost use Rattle.flow_modes.specs.Boxes.{NodesMakeBoxesAlike};
ghost use Rattle.flow_modes.specs.Flow.{BoxesAlike, BoxesAskAlike, ContentsAlike, LayoutsAlike};
ghost use Rattle.flow_modes.specs.Lines.{LineFragmentsAlike};
ghost use Rattle.flow_modes.specs.Pages.{PagesAreTurned, StyledPagesAreTurned};
ghost use Rattle.flow_modes.specs.Paragraphs.{ParagraphLinesAlike, ParagraphSizesAlike, ParagraphsAlike};
ghost use Rattle.flow_modes.specs.Prepared.{PreparationsAlike, UnitsAlike};
ghost use Rattle.flow_modes.specs.Sides.{SidesAlike};
ghost use Rattle.flow_modes.specs.Sizes.{BoxSizesAlike, EquationsAlike, InlineBlocksAlike};

/// Margins, paddings and borders are in each way on the sides of the flow on which they are in a horizontal one, and the used direction is
/// the computed one.
pub fn sides_alike()
    ensures { SidesAlike }
{}

/// A styled tree in a way makes the boxes, in that way, that the tree makes.
pub fn nodes_make_boxes_alike()
    ensures { NodesMakeBoxesAlike }
{}

/// The units of a text in a way are those of a horizontal flow; they stand in their lines as sideways text does.
pub fn units_alike()
    ensures { UnitsAlike }
{}

/// What is prepared of a paragraph in a way is what is prepared of it in a horizontal flow: its levels, its classes for the rules of
/// a line, the base levels and the breaks are the same.
pub fn preparations_alike()
    ensures { PreparationsAlike }
{}

/// The fragments of a line whose text stands as sideways text does in a mode, and whose inline-blocks are of that mode, are those of the
/// line, in that mode.
pub fn line_fragments_alike()
    ensures { LineFragmentsAlike }
{}

/// A paragraph in a way has the min-content and the max-content size that it has in a horizontal flow.
pub fn paragraph_sizes_alike()
    ensures { ParagraphSizesAlike }
{}

/// The lines of a prepared paragraph in a way are those of a horizontal flow, in that way.
pub fn paragraph_lines_alike()
    ensures { ParagraphLinesAlike }
{}

/// So the lines of the items of a paragraph in a way are those of the items in a horizontal flow, in that way.
pub fn paragraphs_alike()
    ensures { ParagraphsAlike }
{}

/// Boxes in a way ask along the lines and across them for the sizes that they ask for in a horizontal flow, and have the same margins,
/// borders and paddings there.
pub fn box_sizes_alike()
    ensures { BoxSizesAlike }
{}

/// The inline axis of a block-level box in a way is filled as in a horizontal flow (CSS 2, 10.3.3).
pub fn equations_alike()
    ensures { EquationsAlike }
{}

/// An inline-block in a way has the margin box and the baseline that it has in a horizontal flow, and its fragment is of the way.
pub fn inline_blocks_alike()
    ensures { InlineBlocksAlike }
{}

/// A box in a way hands the block size on to its children that it hands on in a horizontal flow, and asks its content for the same
/// min-content and max-content sizes and the same inline size.
pub fn boxes_ask_alike()
    ensures { BoxesAskAlike }
{}

/// What is in a box, its children one under the other or the lines of its paragraph, is in a way what is in it in a horizontal flow, in that
/// way.
pub fn contents_alike()
    ensures { ContentsAlike }
{}

/// A box in a way comes under each constraint to what it comes to in a horizontal flow, in that way, with the same margins that adjoin
/// others.
pub fn boxes_alike()
    ensures { BoxesAlike }
{}

/// The layout of a tree of boxes in a way is the layout of the tree in a horizontal flow, in that way.
pub fn layouts_alike()
    ensures { LayoutsAlike }
{}

/// The layout of boxes in a way lays out the boxes that it lays out in a horizontal flow, under the same constraints, and prepares the same
/// texts.
pub fn asks_alike()
    ensures { AsksAlike }
{}

/// The page of boxes in a way is the page of the boxes in a horizontal flow, turned to the mode of the way.
pub fn pages_are_turned()
    ensures { PagesAreTurned }
{}

/// So is the page of a styled tree in a way.
pub fn styled_pages_are_turned()
    ensures { StyledPagesAreTurned }
{}
