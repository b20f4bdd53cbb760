//! No box hangs on a face, so no edit of one is refused for boxes (CSS Writing Modes 4, 7.3).

ghost use Rattle.flow_laws.specs.Faces.{FacesTurnNoBox};

/// After an advance was set in a face, or a face was retired, the same boxes are orthogonal to their containing blocks.
pub fn faces_turn_no_box()
    ensures { FacesTurnNoBox }
{}
