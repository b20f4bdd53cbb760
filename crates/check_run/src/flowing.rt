//! A document that is asked whether it can be turned, and that shows its flow, with a face that counts how often it is asked.

ghost use Rattle.std.specs.Prelude.{◌≡◌, ◌≤◌, ◌<◌, length};

use crate::asked::AskedFace;
use crate::opening::opened;
use face_api::{Face, Faces};
use io_edge::SteadySink;
use listing::write_listing;
use std::alloc::Global;
use std::cell::Cell;
use std::marker::Brand;
use std::rc::Rc;
use std::sync::ledger::{Blank, Ledger};
use std::test::Fail;
use wm_units::{Steps, View};

const TURNABLE: &[u8] =
    b"<html><body><p>one <b style=\"margin-inline:1px 2px\">two</b></p></body></html>";

/// A hidden element of it has a `top`.
const TIED: &[u8] =
    b"<html><body><p>one</p><p style=\"display:none;top:5px;left:5px\">two</p></body></html>";

/// The place in bytes of the attribute that says it.
const PLACE_OF_TOP: usize = 25;

const VIEW: View = View {
    inline: 20480,
    block: 38400,
};

/// The place of what ties a document to one mode, or what it shows.
#[derive(Drop)]
enum Answered {
    Tied(usize),
    Shown(Flows),
}

/// The listings of a flow and of the page without shifts, and how often the face had been asked when each was laid out.
#[derive(Drop)]
struct Flows {
    listings: (SteadySink, SteadySink),
    asked: (u32, u32),
}

// What a document answers that can be opened; `None` where it can't.
fn flowed<L: Ledger, M: Ledger>(
    alloc: Global,
    input: &[u8],
    first: Blank,
    second: Blank,
) -> Result<Option<Answered>, Fail>
    requires short { length input.now ≤ 1048576 }
    requires first_name { first.name ≡ L.name }
    requires first_parts { first.parts ≡ L.parts }
    requires first_some { 0 < first.parts }
    requires second_name { second.name ≡ M.name }
    requires second_parts { second.parts ≡ M.parts }
    requires second_some { 0 < second.parts }
{
    let asked = Rc::new(alloc, Cell::new(0))?;
    let face = AskedFace::new(asked.clone()?);
    let mut own: Vec<Box<dyn Face>> = Vec::new(alloc);
    own.push(Box::new(alloc, face)?)?;
    let faces = Faces::new(alloc, own)?;
    let Some(mut session) = opened(alloc, input, faces, VIEW)? else {
        return Ok(None);
    };
    if let Some(place) = session.physical() {
        return Ok(Some(Answered::Tied(place)));
    }
    let mut prepared = Steps::<L>::open(first);
    let mut arranged = Steps::<M>::open(second);
    let flow = session.flow(&mut prepared, &mut arranged)?;
    let asked_first = asked.get();
    let page = session.show(&mut prepared, &mut arranged)?;
    let mut of_flow = SteadySink::new(alloc);
    write_listing(&flow, &mut of_flow)?;
    let mut of_page = SteadySink::new(alloc);
    write_listing(&page, &mut of_page)?;
    Ok(Some(Answered::Shown(Flows {
        listings: (of_flow, of_page),
        asked: (asked_first, asked.get()),
    })))
}

/// The flow of a document that can be turned is its page without shifts, and is kept for it: no face is asked again.
#[test]
fn a_flow_is_the_page_of_show(rt: HostRuntime) -> Result<(), Fail> {
    let flowed = flowed::<Brand, Brand>(rt.alloc(), TURNABLE, Blank::new(1), Blank::new(1))?;
    assert!(rt; matches!(flowed, Some(Answered::Shown(_))));
    if let Some(Answered::Shown(flows)) = flowed {
        assert_eq!(rt; flows.listings.0.bytes(), flows.listings.1.bytes());
        assert_eq!(rt; flows.asked.0, flows.asked.1);
        assert!(rt; flows.asked.0 > 0);
    }
    Ok(())
}

/// What is hidden ties a document too, and the place is that of its style attribute in the source.
#[test]
fn a_hidden_element_ties_its_document(rt: HostRuntime) -> Result<(), Fail> {
    let flowed = flowed::<Brand, Brand>(rt.alloc(), TIED, Blank::new(1), Blank::new(1))?;
    assert!(rt; matches!(flowed, Some(Answered::Tied(PLACE_OF_TOP))));
    Ok(())
}
