//! Why an advance was not set, or a face not found.

ghost use Rattle.std.specs.Prelude.{◌≡◌};
ghost use Rattle.face_api.specs.Error.{faces_error};
ghost use Rattle.face_api.specs.declared.error.FaceError.TheVariants.{Memory as face_memory};

use std::alloc::{AllocError, AllocFailed};
use thiserror::Error;

/// Why a face did not set an advance.
#[derive(Clone, Copy, Debug, Drop, PartialEq, Eq, Error)]
pub enum FaceError {
    /// Its table is fixed.
    #[error("the face is fixed")]
    Fixed,
    /// Its table has no room for one more row.
    #[error("the face has no room for one more row")]
    Full,
    /// Memory ran out.
    #[error("out of memory")]
    Memory,
}

/// Why an advance was not set, or a face not retired.
#[derive(Clone, Copy, Debug, Drop, PartialEq, Eq, Error)]
pub enum FacesError {
    /// There never was a face of that number, or it is retired.
    #[error("there is no such face")]
    NoFace,
    /// The face's table is fixed.
    #[error("the face is fixed")]
    Fixed,
    /// The face's table has no room for one more row.
    #[error("the face has no room for one more row")]
    Full,
    /// Memory ran out.
    #[error("out of memory")]
    Memory,
}

impl From<AllocError> for FaceError {
    ghost from_gives = { λ _ error. error ≡ face_memory };

    fn from(_: AllocError) -> Self {
        FaceError::Memory
    }
}

impl<T: Drop> From<AllocFailed<T>> for FaceError {
    ghost from_gives = { λ _ error. error ≡ face_memory };

    fn from(_: AllocFailed<T>) -> Self {
        FaceError::Memory
    }
}

impl From<FaceError> for FacesError {
    ghost from_gives = { λ face error. error ≡ faces_error face };

    fn from(face: FaceError) -> Self {
        match face {
            FaceError::Fixed => FacesError::Fixed,
            FaceError::Full => FacesError::Full,
            FaceError::Memory => FacesError::Memory,
        }
    }
}
