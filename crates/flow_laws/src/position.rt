//! No box's layout hangs on `position: relative` or on an inset: a relatively positioned box is laid out as if it were static, and shifted
//! afterwards (CSS Positioned Layout 3, 2).

ghost use Rattle.flow_laws.specs.Static.{FlowsAreOfStaticNodes, LayoutsAreOfStaticBoxes, StaticNodesMakeStaticBoxes};

/// The layout of boxes is that of the same boxes as static ones.
pub fn boxes_are_laid_out_as_static_ones()
    ensures { LayoutsAreOfStaticBoxes }
{}

/// Static nodes make the boxes that the nodes make, as static ones.
pub fn static_nodes_make_static_boxes()
    ensures { StaticNodesMakeStaticBoxes }
{}

/// Documents that differ in positions and insets alone have one flow.
pub fn no_flow_depends_on_an_inset()
    ensures { FlowsAreOfStaticNodes }
{}
