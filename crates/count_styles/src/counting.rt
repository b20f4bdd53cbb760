//! A document is taken so far as is asked.

ghost use Rattle.std.specs.Prelude.{◌≡◌, length, map, IfOk};
ghost use Rattle.std.specs.List.{All};
ghost use Rattle.css_types.specs.Rule.{rulings_of};
ghost use Rattle.html_read.specs.Answered.{IsTheDocument};
ghost use Rattle.html_read.specs.Shape.{IsShaped};
ghost use Rattle.html_read.specs.Values.{Whole, nodes_of};
ghost use Rattle.dom_store.specs.State.{AreSaid};
ghost use Rattle.cascade.specs.Winners.{AreSaidRules};

use crate::error::CountError;
use crate::stage::Stage;
use box_gen::{boxes, check_boxes};
use cascade::RuleIndex;
use cascade::laws::what_is_read_is_said;
use css_sheet::read_styled;
use css_types::Styled;
use dom_store::Document;
use html_read::{ReadDocument, ReadNode, read_document};
use std::alloc::Global;
use style_tree::styled;

/// How many nodes the document of these bytes has, which is taken so far.
pub(crate) fn count(alloc: Global, bytes: &[u8], stage: Stage) -> Result<usize, CountError>
    ensures { IfOk result (λ count. (document : Whole) × IsTheDocument bytes.now document × (count ≡ length document.nodes)) }
{
    let read = read_document(alloc, bytes)?;
    if stage != Stage::Document {
        take_styles(alloc, &read, stage)?;
    }
    let nodes: &[ReadNode] = &read.nodes;
    Ok(nodes.len())
}

// Reads the style sheets of a document that was read, and takes it on from there.
fn take_styles(alloc: Global, read: &ReadDocument, stage: Stage) -> Result<(), CountError>
    requires shaped { IsShaped (nodes_of read.now.nodes.items) }
{
    what_is_read_is_said();
    let styles = read_styled(alloc, read)?;
    if stage == Stage::Read {
        return Ok(());
    }
    take_on(alloc, read, &styles, stage)
}

// Takes a document that was read on from there.
fn take_on(
    alloc: Global,
    read: &ReadDocument,
    styles: &Styled,
    stage: Stage,
) -> Result<(), CountError>
    requires shaped { IsShaped (nodes_of read.now.nodes.items) }
    requires each { length styles.now.styles.items ≡ length read.now.nodes.items }
    requires rules { AreSaidRules (rulings_of styles.now.rules.items) }
    requires own { All (λ own. AreSaid own.items) styles.now.styles.items }
{
    let document = Document::from_read(alloc, read, styles)?;
    let index = RuleIndex::new(alloc, &styles.rules)?;
    if stage == Stage::Nodes {
        return Ok(());
    }
    let root = styled(alloc, &document, &index)?;
    if stage == Stage::Boxes {
        check_boxes(&root)?;
        boxes(alloc, &root)?;
    }
    Ok(())
}
