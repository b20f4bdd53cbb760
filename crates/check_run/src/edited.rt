//! Pages after edits of a document's tree, with a face that counts how often it is asked: what no edit touched isn't asked for again.

ghost use Rattle.std.specs.Prelude.{◌≡◌, ◌<◌};

use crate::asked::AskedFace;
use crate::running::words;
use face_api::{Face, MonoFace};
use io_edge::{SteadySink, SteadySource};
use std::cell::Cell;
use std::marker::Brand;
use std::process::Abort;
use std::rc::Rc;
use std::sync::ledger::{Blank, Ledger};
use std::test::Fail;
use wm_run::{Status, run};
use wm_units::Steps;

/// A paragraph, and one that is set in face 1.
const SHOWN: &[u8] =
    b"<html><body><p>one</p><p style=\"font-family:face1\">two <span style=\"display:inline-block\">three</span></p></body></html>\nshow\n";

/// An edit of the first paragraph, one that puts a paragraph before it, and one that takes that away.
const EDITED_BESIDE: &[u8] =
    b"<html><body><p>one</p><p style=\"font-family:face1\">two <span style=\"display:inline-block\">three</span></p></body></html>\nshow\ntext 3 four\nshow\ninsert 1 0 <p>five</p>\nshow\nremove 8\nshow\n";

/// An edit of the paragraph in face 1.
const EDITED_INSIDE: &[u8] =
    b"<html><body><p>one</p><p style=\"font-family:face1\">two <span style=\"display:inline-block\">three</span></p></body></html>\nshow\ntext 5 four\nshow\n";

// How a run of `edit` ends, and how often it asks face 1.
fn asked_by<L: Ledger, M: Ledger>(
    rt: &(impl Abort + AllocGlobal),
    input: &[u8],
    first: Blank,
    second: Blank,
) -> Result<(Status, u32), Fail>
    requires first_name { first.name ≡ L.name }
    requires first_parts { first.parts ≡ L.parts }
    requires first_some { 0 < first.parts }
    requires second_name { second.name ≡ M.name }
    requires second_parts { second.parts ≡ M.parts }
    requires second_some { 0 < second.parts }
{
    let alloc = rt.alloc();
    let asked = Rc::new(alloc, Cell::new(0))?;
    let mut faces: Vec<Box<dyn Face>> = Vec::new(alloc);
    faces.push(Box::new(alloc, MonoFace::new())?)?;
    faces.push(Box::new(alloc, AskedFace::new(asked.clone()?))?)?;
    let words = words(rt, &["edit"])?;
    let mut source = SteadySource::new(input);
    let mut sink = SteadySink::new(alloc);
    let mut prepared = Steps::<L>::open(first);
    let mut arranged = Steps::<M>::open(second);
    let status = run(
        alloc,
        &words,
        faces,
        &mut source,
        &mut sink,
        &mut prepared,
        &mut arranged,
    );
    Ok((status, asked.get()))
}

/// Edits beside a paragraph have nothing of it prepared or laid out again; an edit in it has.
#[test]
fn what_no_edit_touched_is_not_asked_for_again(rt: HostRuntime) -> Result<(), Fail> {
    let once = asked_by::<Brand, Brand>(&rt, SHOWN, Blank::new(1), Blank::new(1))?;
    let beside = asked_by::<Brand, Brand>(&rt, EDITED_BESIDE, Blank::new(1), Blank::new(1))?;
    let inside = asked_by::<Brand, Brand>(&rt, EDITED_INSIDE, Blank::new(1), Blank::new(1))?;
    assert_eq!(rt; once.0, Status::Done);
    assert!(rt; once.1 > 0);
    assert_eq!(rt; beside, once);
    assert_eq!(rt; inside.0, Status::Done);
    assert!(rt; inside.1 > once.1);
    Ok(())
}
