//! The bytes of a source to what is due for them.

ghost use Rattle.std.specs.Prelude.{◌≡◌, ◌≤◌, List, ℕ, Some, length, IfOk, IsErrOf};
ghost use Rattle.std.specs.Io.KnownBytes.{IsAtEnd};
ghost use Rattle.face_api.specs.Faces.{faces_of};
ghost use Rattle.wm_units.specs.View.{IsView};
ghost use Rattle.io_edge.specs.Edge.{Rose};
ghost use Rattle.input_due.specs.Due.{IsOpen, IsDueBy, IsReady};
ghost use Rattle.input_due.specs.Input.{IsDueOfInput, longest_input};
ghost use Rattle.input_due.specs.Owed.{IsOwedBy, IsOwedByInput};

use crate::document::due_of_document;
use crate::due::{Cause, Due};
use crate::error::InputError;
use crate::follows::Follows;
use face_api::{Face, Faces};
use io_edge::{ReadError, Source, read_all};
use std::alloc::Global;
use wm_units::View;

/// The greatest length of an input, in bytes.
const LONGEST_INPUT: usize = 1_048_576;

/// Reads an input to its end, and finds out what is due for it: of more than 1,048,576 bytes its refusal. Behind the document
/// stand a script or the lines of a probe, or neither may stand; then the page is listed once, or the flow and the page in each mode.
/// `ReadFault` comes only where the source's count of faults rose in this call. The source has none left where its document is open,
/// and where a shorter input is refused.
pub fn due_of_input<S: Source>(
    alloc: Global,
    view: View,
    faces: Faces,
    follows: Follows,
    source: &mut S,
) -> Result<Due, InputError>
    requires view { IsView view }
    ensures due { IfOk result (λ due. (input : List ℕ) → S.left source.old ≡ Some input → IsDueBy ⟦<dyn Face as Face>⟧ (IsDueOfInput (faces_of ⟦<dyn Face as Face>⟧ faces) view follows input) due) }
    ensures owed { IfOk result (λ due. (input : List ℕ) → S.left source.old ≡ Some input → IsOwedBy ⟦<dyn Face as Face>⟧ (IsOwedByInput (faces_of ⟦<dyn Face as Face>⟧ faces) view follows input) due) }
    ensures ready { IfOk result (λ due. IsReady ⟦<dyn Face as Face>⟧ due) }
    ensures done { IfOk result (λ due. IsOpen due → IsAtEnd (S.left source.new)) }
    ensures short { IfOk result (λ due. (input : List ℕ) → S.left source.old ≡ Some input → length input ≤ longest_input → IsAtEnd (S.left source.new)) }
    ensures fault { IsErrOf result InputError.ReadFault → Rose (S.faults source.old) (S.faults source.new) }
{
    match read_all(alloc, source, LONGEST_INPUT) {
        Ok(input) => match due_of_document(alloc, view, faces, input.as_slice(), follows) {
            Ok(due) => Ok(due),
            Err(_) => Err(InputError::Memory),
        },
        Err(ReadError::TooLong) => Ok(Due::Refused {
            cause: Cause::TooLong,
            place: LONGEST_INPUT,
        }),
        Err(ReadError::ReadFault) => Err(InputError::ReadFault),
        Err(ReadError::Memory) => Err(InputError::Memory),
    }
}
