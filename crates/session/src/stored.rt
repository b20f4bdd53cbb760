//! The document that was read, with its styles (docs/PROFILE/nodes.md).

ghost use Rattle.std.specs.Prelude.{◌≡◌, IfOk, length, map};
ghost use Rattle.std.specs.List.{All};
ghost use Rattle.html_read.specs.Shape.{IsInDocumentOrder, IsShaped};
ghost use Rattle.html_read.specs.Values.{nodes_of};
ghost use Rattle.dom_store.specs.State.{AreSaid, IsRooted, IsSaidState, state_of, tree_of};
ghost use Rattle.dom_store.specs.Whole.{listed, numbered};
ghost use Rattle.std.specs.Prelude.{None};
ghost use Rattle.session.specs.Opening.{Stores};

use crate::error::OpenError;
use css_types::Styled;
use dom_store::Document;
use html_read::ReadDocument;
use std::alloc::Global;

/// The document of these nodes, with their declarations.
pub(crate) fn stored(
    alloc: Global,
    read: &ReadDocument,
    styled: &Styled,
) -> Result<Document, OpenError>
    requires shaped { IsShaped (nodes_of read.now.nodes.items) }
    requires ordered { IsInDocumentOrder (nodes_of read.now.nodes.items) }
    requires each { length styled.now.styles.items ≡ length read.now.nodes.items }
    requires own { All (λ own. AreSaid own.items) styled.now.styles.items }
    ensures stores { Stores (nodes_of read.now.nodes.items) (map (λ own. own.items) styled.now.styles.items) result }
    ensures rooted { IfOk result (λ document. IsRooted (state_of document)) }
    ensures said { IfOk result (λ document. IsSaidState (state_of document)) }
    ensures whole { IfOk result (λ document. listed None (tree_of (state_of document)) ≡ numbered (nodes_of read.now.nodes.items) (map (λ own. own.items) styled.now.styles.items)) }
{
    let document = Document::from_read(alloc, read, styled)?;
    Ok(document)
}
