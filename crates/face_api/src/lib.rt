//! Faces: how far characters advance, as the host tells it.
#![tactic(auto)]

mod error;
mod face;
mod faces;
mod kinds;
mod living;
mod row;
mod rows;
mod table;

pub use error::{FaceError, FacesError};
pub use face::Face;
pub use faces::Faces;
pub use kinds::{MonoFace, TableFace, WideFace};
pub use row::{Defaults, Metrics, Row};
pub use table::FaceTable;
