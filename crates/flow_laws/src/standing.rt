//! Where what fills a box stands on its block axis (CSS 2, 8.3.1, 9.4.1, 10.6.3 and 10.8).

ghost use Rattle.flow_laws.specs.Standing.{AutoIsAsContent, ContentStandsInside, InOrderIsInside, LinesStandInside};

/// Block-level children without negative margins or sizes stand one behind another, and inside the block extent of the content.
pub fn content_stands_inside_its_extent()
    ensures { ContentStandsInside }
{}

/// Each line of a paragraph is as high at least as the line height of its container, and the lines stand one behind another inside the block
/// extent of the paragraph.
pub fn lines_stand_inside_their_paragraph()
    ensures { LinesStandInside }
{}

/// The block size of a box that isn't definite is the block extent of its content, held within its limits.
pub fn a_block_size_that_is_not_definite_is_as_the_content()
    ensures { AutoIsAsContent }
{}

/// Fragments that stand one behind another between two places stand there each, but for the end of one that is collapsed through.
pub fn what_stands_in_order_is_inside()
    ensures { InOrderIsInside }
{}
