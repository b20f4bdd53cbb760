//! A document that is shown twice, the second time with its shifts, with a face that counts how often it is asked.

ghost use Rattle.std.specs.Prelude.{◌≡◌, ◌≤◌, ◌<◌, length};

use crate::asked::AskedFace;
use crate::opening::opened;
use face_api::{Face, Faces};
use io_edge::SteadySink;
use listing::write_listing;
use place_map::Placed;
use std::alloc::Global;
use std::cell::Cell;
use std::marker::Brand;
use std::rc::Rc;
use std::sync::ledger::{Blank, Ledger};
use std::test::Fail;
use wm_units::{Steps, View};

const TURNED: &[u8] =
    b"<html><body><p>one two <span style=\"display:inline-block;writing-mode:vertical-rl\">three \xe5\x9b\x9b</span></p><div style=\"writing-mode:vertical-lr\">five six</div></body></html>";

const SHIFTED: &[u8] =
    b"<html><body><p>one <b style=\"position:relative;top:5px\">two</b></p></body></html>";

const VIEW: View = View {
    inline: 20480,
    block: 38400,
};

/// Two listings, one after the other, how often the face had been asked when each was laid out, and how many positions there are.
#[derive(Drop)]
struct Twice {
    listings: (SteadySink, SteadySink),
    asked: (u32, u32),
    positions: usize,
}

fn listed(alloc: Global, page: &Placed) -> Result<SteadySink, Fail> {
    let mut sink = SteadySink::new(alloc);
    write_listing(page, &mut sink)?;
    Ok(sink)
}

// A document that can be opened, shown without its shifts and then with them; `None` where it can't.
fn shown_twice<L: Ledger, M: Ledger>(
    alloc: Global,
    input: &[u8],
    first: Blank,
    second: Blank,
) -> Result<Option<Twice>, Fail>
    requires short { length input.now ≤ 1048576 }
    requires first_name { first.name ≡ L.name }
    requires first_parts { first.parts ≡ L.parts }
    requires first_some { 0 < first.parts }
    requires second_name { second.name ≡ M.name }
    requires second_parts { second.parts ≡ M.parts }
    requires second_some { 0 < second.parts }
{
    let asked = Rc::new(alloc, Cell::new(0))?;
    let face = AskedFace::new(asked.clone()?);
    let mut own: Vec<Box<dyn Face>> = Vec::new(alloc);
    own.push(Box::new(alloc, face)?)?;
    let faces = Faces::new(alloc, own)?;
    let Some(mut session) = opened(alloc, input, faces, VIEW)? else {
        return Ok(None);
    };
    let mut prepared = Steps::<L>::open(first);
    let mut arranged = Steps::<M>::open(second);
    let page = session.show(&mut prepared, &mut arranged)?;
    let asked_first = asked.get();
    let again = session.page(&mut prepared, &mut arranged)?;
    Ok(Some(Twice {
        listings: (listed(alloc, &page)?, listed(alloc, &again)?),
        asked: (asked_first, asked.get()),
        positions: session.positions()?.len(),
    }))
}

/// What is laid out is kept: no face is asked for the second page. It is the first one, since nothing is shifted.
#[test]
fn a_second_show_asks_no_face(rt: HostRuntime) -> Result<(), Fail> {
    let shown = shown_twice::<Brand, Brand>(rt.alloc(), TURNED, Blank::new(1), Blank::new(1))?;
    assert!(rt; shown.is_some());
    if let Some(twice) = shown {
        assert_eq!(rt; twice.listings.0.bytes(), twice.listings.1.bytes());
        assert_eq!(rt; twice.asked.0, twice.asked.1);
        assert!(rt; twice.asked.0 > 0);
        assert_eq!(rt; twice.positions, 8);
    }
    Ok(())
}

/// Nor is one asked for a page with shifts, and that is another page.
#[test]
fn a_shifted_page_asks_no_face(rt: HostRuntime) -> Result<(), Fail> {
    let shown = shown_twice::<Brand, Brand>(rt.alloc(), SHIFTED, Blank::new(1), Blank::new(1))?;
    assert!(rt; shown.is_some());
    if let Some(twice) = shown {
        assert!(rt; twice.listings.0.bytes() != twice.listings.1.bytes());
        assert_eq!(rt; twice.asked.0, twice.asked.1);
        assert_eq!(rt; twice.positions, 6);
    }
    Ok(())
}
