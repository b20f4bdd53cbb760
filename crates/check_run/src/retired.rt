//! An open document one of whose faces is given up.

ghost use Rattle.std.specs.Prelude.{◌≡◌, ◌≤◌, ◌<◌, length};

use crate::opening::opened;
use edits::Edit;
use face_api::{Face, FaceError, Faces, Metrics, MonoFace, TableFace};
use io_edge::SteadySink;
use listing::write_listing;
use session::ApplyError;
use std::alloc::Global;
use std::cell::Cell;
use std::marker::Brand;
use std::rc::Rc;
use std::sync::ledger::{Blank, Ledger};
use std::test::Fail;
use wm_units::{Steps, View};

const DOCUMENT: &[u8] =
    b"<html><body style=\"margin:0;font-family:face1\"><p style=\"margin:0\">im</p></body></html>";

const VIEW: View = View {
    inline: 12800,
    block: 6400,
};

/// The page in face 1.
const IN_FACE_1: &str = "\
page 12800 6400 horizontal-tb ltr
box 0 0 0 0 12800 896
box 1 0 0 0 12800 896
box 2 0 0 0 12800 896
line 2 0 0 0 0 12800 896 640
run 3 0 2 0 0 1024 896 h 0 0069,006D
end
";

/// The page in face 0.
const IN_FACE_0: &str = "\
page 12800 6400 horizontal-tb ltr
box 0 0 0 0 12800 1024
box 1 0 0 0 12800 1024
box 2 0 0 0 12800 1024
line 2 0 0 0 0 12800 1024 768
run 3 0 2 0 0 1024 1024 h 0 0069,006D
end
";

/// A face with rows of its own that counts its drops in a cell that the test shares.
struct LentFace {
    face: TableFace,
    drops: Rc<Cell<u32>>,
}

impl Drop for LentFace {
    fn drop(self) {
        self.drops.set(self.drops.get().wrapping_add(1));
        let LentFace { face: _, drops: _ } = self;
    }
}

impl Face for LentFace {
    ghost table = { λ own. own.face };

    fn metrics(&self) -> Metrics {
        self.face.metrics()
    }

    fn advance(&self, c: char, upright: bool) -> u32 {
        self.face.advance(c, upright)
    }

    fn set(&mut self, c: char, upright: bool, value: u32) -> Result<(), FaceError> {
        self.face.set(c, upright, value)
    }
}

/// The listings before the face is given up and behind that, what was answered, and how often the face was dropped.
#[derive(Drop)]
struct GivenUp {
    listings: (SteadySink, SteadySink),
    answers: (Result<(), ApplyError>, Result<(), ApplyError>),
    drops: (u32, u32, u32),
}

// A document that is shown, whose face 1 is then retired twice, and that is shown again; `None` where it can't be opened.
fn given_up<L: Ledger, M: Ledger>(
    alloc: Global,
    input: &[u8],
    first: Blank,
    second: Blank,
) -> Result<Option<GivenUp>, Fail>
    requires short { length input.now ≤ 1048576 }
    requires first_name { first.name ≡ L.name }
    requires first_parts { first.parts ≡ L.parts }
    requires first_some { 0 < first.parts }
    requires second_name { second.name ≡ M.name }
    requires second_parts { second.parts ≡ M.parts }
    requires second_some { 0 < second.parts }
{
    let drops = Rc::new(alloc, Cell::new(0))?;
    let face = LentFace {
        face: TableFace::new(alloc)?,
        drops: drops.clone()?,
    };
    let mut own: Vec<Box<dyn Face>> = Vec::new(alloc);
    own.push(Box::new(alloc, MonoFace::new())?)?;
    own.push(Box::new(alloc, face)?)?;
    let faces = Faces::new(alloc, own)?;
    let Some(mut session) = opened(alloc, input, faces, VIEW)? else {
        return Ok(None);
    };
    let mut prepared = Steps::<L>::open(first);
    let mut arranged = Steps::<M>::open(second);
    let mut before = SteadySink::new(alloc);
    let page = session.page(&mut prepared, &mut arranged)?;
    write_listing(&page, &mut before)?;
    let lent = drops.get();
    let retired = session.apply(&Edit::Retire { face: 1 });
    let gone = drops.get();
    let again = session.apply(&Edit::Retire { face: 1 });
    let mut behind = SteadySink::new(alloc);
    let page = session.page(&mut prepared, &mut arranged)?;
    write_listing(&page, &mut behind)?;
    Ok(Some(GivenUp {
        listings: (before, behind),
        answers: (retired, again),
        drops: (lent, gone, drops.get()),
    }))
}

/// A face that is retired is dropped at that call, once, and its text is set in face 0 from then on.
#[test]
fn a_retired_face_is_dropped_at_once(rt: HostRuntime) -> Result<(), Fail> {
    let shown = given_up::<Brand, Brand>(rt.alloc(), DOCUMENT, Blank::new(1), Blank::new(1))?;
    assert!(rt; shown.is_some());
    if let Some(shown) = shown {
        assert_eq!(rt; shown.answers.0, Ok(()));
        assert_eq!(rt; shown.answers.1, Err(ApplyError::NoFace));
        assert_eq!(rt; shown.drops, (0, 1, 1));
        assert_eq!(rt; shown.listings.0.bytes(), IN_FACE_1.as_bytes());
        assert_eq!(rt; shown.listings.1.bytes(), IN_FACE_0.as_bytes());
    }
    Ok(())
}
