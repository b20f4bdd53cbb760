//! An input to what is due for it: its document, opened, with what is asked of it, or its refusal. No stream is touched here.

ghost use Rattle.std.specs.Prelude.{◌≡◌, ◌-◌, ◌≤◌, length, drop, IfOk};
ghost use Rattle.std.specs.List.{All};
ghost use Rattle.std.specs.Str.{IsUtf8};
ghost use Rattle.wm_units.specs.View.{IsView};
ghost use Rattle.face_api.specs.Faces.{faces_of};
ghost use Rattle.css_types.specs.Rule.{rulings_of, styled_of};
ghost use Rattle.html_read.specs.Reading as reading;
ghost use Rattle.html_read.specs.Values.{nodes_of, whole_of};
ghost use Rattle.dom_store.specs.State.{AreSaid};
ghost use Rattle.cascade.specs.Winners.{AreSaidRules};
ghost use Rattle.input_due.specs.Asked.{FitsAsked, bytes_asked, has_lines};
ghost use Rattle.input_due.specs.Document.{IsDueAs, IsOpening, IsReadBefore, IsRefusing, asked_in, asked_of};
ghost use Rattle.input_due.specs.Due.{IsDueBy, IsReady};
ghost use Rattle.input_due.specs.Input.{ComesOfAsked, ComesOfDocument, ComesOfOpened, ComesOfTail, ComesOfWhole, IsDueOfDocument};
ghost use Rattle.input_due.specs.Owed.{IsOwedBy, IsOwedByDocument};

use crate::due::Due;
use crate::follows::Follows;
use crate::lines::{Behind, Halt, Lines, read_lines};
use cascade::laws::what_is_read_is_said;
use css_sheet::read_styled;
use css_types::Styled;
use css_values::CssError;
use face_api::{Face, Faces};
use html_read::laws::{documents_spell, texts_stand_apart};
use html_read::{HtmlError, ReadDocument, read_document, read_tail};
use session::Session;
use session::laws::one_answer;
use std::alloc::{AllocError, Global};
use std::str;
use style_modes::laws::none_is_first_where_turnable;
use wm_units::View;

/// What is due for an input that isn't too long: a script or the lines of a probe may follow its document, or neither; then the
/// page is listed once, or the flow and the page in each mode. What is owed to its pages is owed for that.
pub fn due_of_document(
    alloc: Global,
    view: View,
    faces: Faces,
    input: &[u8],
    follows: Follows,
) -> Result<Due, AllocError>
    requires view { IsView view }
    requires short { length input.now ≤ 1048576 }
    ensures due { IfOk result (λ due. IsDueBy ⟦<dyn Face as Face>⟧ (IsDueOfDocument (faces_of ⟦<dyn Face as Face>⟧ faces) view follows input.now) due) }
    ensures owed { IfOk result (λ due. IsOwedBy ⟦<dyn Face as Face>⟧ (IsOwedByDocument (faces_of ⟦<dyn Face as Face>⟧ faces) view follows input.now) due) }
    ensures ready { IfOk result (λ due. IsReady ⟦<dyn Face as Face>⟧ due) }
{
    one_answer();
    with_document(alloc, view, faces, input, follows)
}

// By its document.
fn with_document(
    alloc: Global,
    view: View,
    faces: Faces,
    input: &[u8],
    follows: Follows,
) -> Result<Due, AllocError>
    requires view { IsView view }
    requires short { length input.now ≤ 1048576 }
    ensures outcome { IfOk result (λ due. IsDueAs ⟦<dyn Face as Face>⟧ (ComesOfDocument IsOpening IsRefusing (faces_of ⟦<dyn Face as Face>⟧ faces) follows input.now) view due) }
    ensures ready { IfOk result (λ due. IsReady ⟦<dyn Face as Face>⟧ due) }
{
    documents_spell();
    texts_stand_apart();
    match read_document(alloc, input) {
        Ok(read) => with_tail(alloc, view, faces, input, &read, follows),
        Err(HtmlError::Refused { kind, place }) => Ok(Due::no_document(kind, place)),
        Err(HtmlError::Memory) => Err(AllocError),
    }
}

// By what stands behind the document.
fn with_tail(
    alloc: Global,
    view: View,
    faces: Faces,
    input: &[u8],
    read: &ReadDocument,
    follows: Follows,
) -> Result<Due, AllocError>
    requires view { IsView view }
    requires short { length input.now ≤ 1048576 }
    requires end { read.now.end ≤ length input.now }
    requires utf8 { IsUtf8 (drop read.now.end input.now) }
    requires read { IsReadBefore read.now read.now.end }
    ensures outcome { IfOk result (λ due. IsDueAs ⟦<dyn Face as Face>⟧ (ComesOfTail IsOpening IsRefusing (faces_of ⟦<dyn Face as Face>⟧ faces) follows (length input.now) (whole_of read.now) (reading.tail (has_lines follows) (drop read.now.end input.now))) view due) }
    ensures ready { IfOk result (λ due. IsReady ⟦<dyn Face as Face>⟧ due) }
{
    match read_tail(input, read.end, follows.has_lines()) {
        Ok(place) => match str::from_utf8(input.split_at(place).1) {
            Ok(text) => with_styles(
                alloc,
                view,
                faces,
                read,
                Behind {
                    follows,
                    text,
                    start: place,
                },
            ),
            // What is left behind a document is a text.
            Err(_) => Err(AllocError),
        },
        Err(HtmlError::Refused { kind, place }) => Ok(Due::no_document(kind, place)),
        Err(HtmlError::Memory) => Err(AllocError),
    }
}

// By its style sheets and style attributes.
fn with_styles(
    alloc: Global,
    view: View,
    faces: Faces,
    read: &ReadDocument,
    behind: Behind<'_>,
) -> Result<Due, AllocError>
    requires view { IsView view }
    requires read { IsReadBefore read.now (1048576 - length behind.text.now) }
    requires short { length behind.text.now ≤ 1048576 }
    ensures outcome { IfOk result (λ due. IsDueAs ⟦<dyn Face as Face>⟧ (ComesOfWhole IsOpening IsRefusing (faces_of ⟦<dyn Face as Face>⟧ faces) (whole_of read.now) (asked_in behind.entry)) view due) }
    ensures ready { IfOk result (λ due. IsReady ⟦<dyn Face as Face>⟧ due) }
{
    what_is_read_is_said();
    match read_styled(alloc, read) {
        Ok(styles) => with_lines(alloc, view, faces, read, &styles, behind),
        Err(CssError::Refused { kind, place }) => Ok(Due::no_styles(kind, place)),
        Err(CssError::Memory) => Err(AllocError),
    }
}

// By the lines behind it.
fn with_lines(
    alloc: Global,
    view: View,
    faces: Faces,
    read: &ReadDocument,
    styles: &Styled,
    behind: Behind<'_>,
) -> Result<Due, AllocError>
    requires view { IsView view }
    requires read { IsReadBefore read.now (1048576 - length behind.text.now) }
    requires short { length behind.text.now ≤ 1048576 }
    requires each { length styles.now.styles.items ≡ length read.now.nodes.items }
    requires rules { AreSaidRules (rulings_of styles.now.rules.items) }
    requires own { All (λ own. AreSaid own.items) styles.now.styles.items }
    ensures outcome { IfOk result (λ due. IsDueAs ⟦<dyn Face as Face>⟧ (ComesOfAsked IsOpening IsRefusing (faces_of ⟦<dyn Face as Face>⟧ faces) (nodes_of read.now.nodes.items) (styled_of styles.now) (asked_in behind.entry)) view due) }
    ensures ready { IfOk result (λ due. IsReady ⟦<dyn Face as Face>⟧ due) }
{
    match read_lines(alloc, behind) {
        Ok(lines) => opened(alloc, view, faces, read, styles, lines),
        Err(Halt::Refused { cause, place }) => Ok(Due::Refused { cause, place }),
        Err(Halt::Memory) => Err(AllocError),
    }
}

// The document, where it can be opened.
fn opened(
    alloc: Global,
    view: View,
    faces: Faces,
    read: &ReadDocument,
    styles: &Styled,
    lines: Lines,
) -> Result<Due, AllocError>
    requires view { IsView view }
    requires read { IsReadBefore read.now (1048576 - bytes_asked (asked_of lines)) }
    requires short { bytes_asked (asked_of lines) ≤ 1048576 }
    requires fits { FitsAsked (asked_of lines) }
    requires each { length styles.now.styles.items ≡ length read.now.nodes.items }
    requires rules { AreSaidRules (rulings_of styles.now.rules.items) }
    requires own { All (λ own. AreSaid own.items) styles.now.styles.items }
    ensures outcome { IfOk result (λ due. IsDueAs ⟦<dyn Face as Face>⟧ (ComesOfOpened IsOpening IsRefusing (faces_of ⟦<dyn Face as Face>⟧ faces) (nodes_of read.now.nodes.items) (styled_of styles.now) (asked_of lines)) view due) }
    ensures ready { IfOk result (λ due. IsReady ⟦<dyn Face as Face>⟧ due) }
{
    none_is_first_where_turnable();
    match Session::open(alloc, read, styles, faces, view) {
        Ok(session) => Ok(lines.over(session)),
        Err(error) => match Due::not_opened(error) {
            Some(due) => Ok(due),
            None => Err(AllocError),
        },
    }
}
