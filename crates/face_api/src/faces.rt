//! The faces of a document, which can be retired.

ghost use Rattle.std.specs.Prelude.{None, slice_index_or, IsSome};

use crate::Face;

/// One to eight faces, by numbers from 0. A face from 1 on can be retired; face 0 always lives.
#[derive(Drop)]
pub struct Faces {
    // None is a face that is retired.
    pub(crate) seats: Vec<Option<Box<dyn Face>>>,
    ghost first: { IsSome (slice_index_or seats.items 0 None) },
}
