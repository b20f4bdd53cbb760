//! Calls that no program makes: a copy of a document, the step of an edit and both halves of it, and the winners for an element
//! without an index of the rules.

use cascade::winners;
use css_sheet::read_styled;
use css_types::{Keyword, Property, Value};
use dom_store::{Document, Edit};
use html_read::read_document;
use std::test::Fail;
use style_types::Style;
use tree_laws::laws::{
    accepted_edits_are_done, opened_documents_are_held, opened_documents_are_reached,
    opened_documents_are_whole, steps_can_be_taken_back,
};

const SOURCE: &[u8] =
    b"<html><head><style>.a{width:5px !important}</style></head><body><p class=\"a\" style=\"width:3px\">x</p></body></html>";

/// What wins for the `p`.
const WINNERS: [(Property, Value); 4] = [
    (Property::Display, Value::Keyword(Keyword::Block)),
    (Property::Width, Value::Px(500)),
    (Property::MarginTop, Value::Em(100)),
    (Property::MarginBottom, Value::Em(100)),
];

#[test]
fn a_copy_and_winners(rt: HostRuntime) -> Result<(), Fail> {
    let read = read_document(rt.alloc(), SOURCE)?;
    let styles = read_styled(rt.alloc(), &read)?;
    let document = Document::from_read(rt.alloc(), &read, &styles)?;
    let copy = document.copy(rt.alloc())?;
    assert_eq!(rt; copy.child(2, 0), Some(3));
    assert!(rt; copy.node(4).is_none());
    let won = winners(rt.alloc(), &document, &styles.rules, 2, &Style::initial())?;
    assert_eq!(rt; won.as_slice(), WINNERS.as_slice());
    Ok(())
}

#[test]
fn a_node_is_taken_by_its_step(rt: HostRuntime) -> Result<(), Fail> {
    let read = read_document(rt.alloc(), SOURCE)?;
    let styles = read_styled(rt.alloc(), &read)?;
    let mut document = Document::from_read(rt.alloc(), &read, &styles)?;
    let step = document.exact(rt.alloc(), &Edit::Remove { node: 2 })?;
    assert!(rt; document.node(2).is_some());
    let change = document.apply_exact(rt.alloc(), &step.again)?;
    assert_eq!(rt; change.elements.as_slice(), [1].as_slice());
    assert!(rt; document.node(2).is_none());
    assert!(rt; document.node(3).is_none());
    assert_eq!(rt; document.child(1, 0), None);
    Ok(())
}

#[test]
fn a_node_that_went_is_restored(rt: HostRuntime) -> Result<(), Fail> {
    opened_documents_are_whole();
    opened_documents_are_reached();
    opened_documents_are_held();
    accepted_edits_are_done();
    steps_can_be_taken_back();
    let read = read_document(rt.alloc(), SOURCE)?;
    let styles = read_styled(rt.alloc(), &read)?;
    let mut document = Document::from_read(rt.alloc(), &read, &styles)?;
    let edit = Edit::Remove { node: 2 };
    let step = document.exact(rt.alloc(), &edit)?;
    let gone = document.apply(rt.alloc(), &edit)?;
    assert!(rt; document.node(3).is_none());
    let back = document.apply_exact(rt.alloc(), &step.back)?;
    assert_eq!(rt; gone.elements.as_slice(), [1].as_slice());
    assert_eq!(rt; back.elements.as_slice(), [1].as_slice());
    assert_eq!(rt; document.child(1, 0), Some(2));
    assert_eq!(rt; document.child(2, 0), Some(3));
    assert!(rt; document.node(3).is_some());
    Ok(())
}
