//! What the texts of a paragraph are cut with.

use bumpalo::Bump;
use face_api::Faces;

/// What the texts of a paragraph are cut with: scratch memory, and the faces that tell how far characters advance.
#[derive(Clone, Copy)]
pub(crate) struct Resources<'b> {
    pub(crate) arena: &'b Bump,
    pub(crate) faces: &'b Faces,
}
