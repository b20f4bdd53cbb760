//! A document that is opened.

ghost use Rattle.std.specs.Prelude.{◌≤◌, length, IfOk, IfSome};
ghost use Rattle.dom_store.specs.State.{state_of};
ghost use Rattle.face_api.specs.Faces.{faces_of};
ghost use Rattle.session.specs.State.{IsSound};
ghost use Rattle.tree_laws.specs.Weight.{bytes, total};
ghost use Rattle.wm_units.specs.View.{IsView};

use cascade::laws::what_is_read_is_said;
use css_sheet::read_styled;
use face_api::{Face, Faces};
use html_read::read_document;
use session::Session;
use std::alloc::Global;
use std::test::Fail;
use wm_units::View;

/// The document of an input, opened with these faces; `None` where it can't be.
pub(crate) fn opened(
    alloc: Global,
    input: &[u8],
    faces: Faces,
    view: View,
) -> Result<Option<Session>, Fail>
    requires short { length input.now ≤ 1048576 }
    requires view { IsView view }
    ensures sound { IfOk result (λ found. IfSome found (λ session. IsSound (faces_of ⟦<dyn Face as Face>⟧ session.faces) session)) }
    ensures bytes { IfOk result (λ found. IfSome found (λ session. total bytes (state_of session.document) ≤ 1048576)) }
{
    what_is_read_is_said();
    let Ok(read) = read_document(alloc, input) else {
        return Ok(None);
    };
    let Ok(styles) = read_styled(alloc, &read) else {
        return Ok(None);
    };
    let Ok(session) = Session::open(alloc, &read, &styles, faces, view) else {
        return Ok(None);
    };
    Ok(Some(session))
}
