//! A page with the face as face 0.

ghost use Rattle.std.specs.Prelude.{◌≡◌, ◌<◌};

use crate::font::dejavu_sans;
use face_api::Face;
use io_edge::{SteadySink, SteadySource};
use std::alloc::Global;
use std::marker::Brand;
use std::str;
use std::sync::ledger::{Blank, Ledger};
use std::test::*;
use wm_run::{Status, Words, run};
use wm_units::Steps;

const WORDS: [&str; 5] = ["layout", "--view-inline", "160", "--view-block", "100"];

const DOCUMENT: &[u8] =
    b"<html><body style=\"margin:0\"><div style=\"font-size:20px\">Will a sign in a <b style=\"font-size:32px\">new</b> face fit?</div></body></html>";

// Lines are as high as ascent and descent, 928 and 236 thousandths of 20 px and of 32 px, each cut down. A run is as wide as the
// advances of its characters, each cut down: of "new" 634, 615 and 818 thousandths of 2,048 units are 1,298, 1,259 and 1,675.
const LISTING: &str = "\
page 10240 6400 horizontal-tb ltr
box 0 0 0 0 10240 3872
box 1 0 0 0 10240 3872
box 2 0 0 0 10240 3872
line 2 0 0 0 0 10240 1489 1187
run 3 0 16 0 0 9336 1489 h 0 0057,0069,006C,006C,0020,0061,0020,0073,0069,0067,006E,0020,0069,006E,0020,0061
line 2 0 1 0 1489 10240 2383 1900
span 4 0 0 1489 4232 2383
run 5 0 3 0 1489 4232 2383 h 0 006E,0065,0077
run 6 0 10 4232 2202 5524 1489 h 0 0020,0066,0061,0063,0065,0020,0066,0069,0074,003F
end
";

#[test]
fn a_page_is_laid_out_by_the_face(rt: HostRuntime) -> Result<(), Fail> {
    let mut words = Words::new(rt.alloc());
    for word in WORDS {
        words.push(word)?;
    }
    let mut source = SteadySource::new(DOCUMENT);
    let mut sink = SteadySink::new(rt.alloc());
    let status = run_with_face::<Brand, Brand>(
        rt.alloc(),
        &words,
        &mut source,
        &mut sink,
        Blank::new(1),
        Blank::new(1),
    )?;
    assert_eq!(rt; str::from_utf8(sink.bytes())?, LISTING);
    assert_eq!(rt; status, Status::Done);
    Ok(())
}

// Runs the words with the face as face 0. The box is made here, in the function that calls `run`.
fn run_with_face<L: Ledger, M: Ledger>(
    alloc: Global,
    words: &Words,
    source: &mut SteadySource,
    sink: &mut SteadySink,
    first: Blank,
    second: Blank,
) -> Result<Status, Fail>
    requires first_name { first.name ≡ L.name }
    requires first_parts { first.parts ≡ L.parts }
    requires first_some { 0 < first.parts }
    requires second_name { second.name ≡ M.name }
    requires second_parts { second.parts ≡ M.parts }
    requires second_some { 0 < second.parts }
{
    let mut faces: Vec<Box<dyn Face>> = Vec::new(alloc);
    faces.push(Box::new(alloc, dejavu_sans(alloc)?)?)?;
    let mut prepared = Steps::<L>::open(first);
    let mut arranged = Steps::<M>::open(second);
    Ok(run(
        alloc,
        words,
        faces,
        source,
        sink,
        &mut prepared,
        &mut arranged,
    ))
}
