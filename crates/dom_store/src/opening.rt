//! The state that a document begins with: its nodes as they were read (DOM, 4.2, narrowed).

ghost use Rattle.std.specs.Prelude.{◌≡◌, ◌≤◌, ℕ, length, map, None, IfOk};
ghost use Rattle.std.specs.List.{All};
ghost use Rattle.html_read.specs.Shape.{IsInDocumentOrder, IsShaped};
ghost use Rattle.html_read.specs.Values.{nodes_of};
ghost use Rattle.dom_store.specs.Building.{FollowParents, numbers_at};
ghost use Rattle.dom_store.specs.Opening.{AreSame, Opens, children_from, greatest_count, opened};
ghost use Rattle.dom_store.specs.State.{AreSaid, IsRooted, IsSaidState, state_of, tree_of};
ghost use Rattle.dom_store.specs.Whole.{listed, numbered};

use crate::children::children_of;
use crate::copies::node_of;
use crate::depths::check_depths;
use crate::document::Document;
use crate::error::EditError;
use crate::node::NodeNumbers;
use css_types::{Declarations, Styled};
use html_read::{ReadDocument, ReadNode};
use std::alloc::{AllocError, Global};

/// How many nodes may live.
pub(crate) const GREATEST_COUNT: u32 = 65_536;

impl Document {
    /// The state that a document begins with: `html` is 0, `body` is 1, the others follow in document order, each with
    /// its own declarations. Refused where there are more than 65,536 nodes, and else where a node stands deeper than 64,
    /// at the least number past the limit. Linear but for the map of numbers, which takes the logarithm of their count
    /// for each node.
    #[tactic(auto, using(crate::proofs::RootLaws::opens_rooted, crate::proofs::RootLaws::opens_said, crate::proofs::WholeLaws::opens_whole))]
    pub fn from_read(
        alloc: Global,
        read: &ReadDocument,
        styled: &Styled,
    ) -> Result<Document, EditError>
        requires shaped { IsShaped (nodes_of read.now.nodes.items) }
        requires each { length styled.now.styles.items ≡ length read.now.nodes.items }
        ensures opened { Opens (nodes_of read.now.nodes.items) (map (λ own. own.items) styled.now.styles.items) result }
        // `html` is 0, and `body`, which alone stands in it, 1; numbers of declarations stay such as a style sheet can say.
        ensures rooted { IfOk result (λ document. IsRooted (state_of document)) }
        ensures said { All (λ own. AreSaid own.items) styled.now.styles.items → IfOk result (λ document. IsSaidState (state_of document)) }
        // The nodes of the document's tree are those that were read, in their order: none is cut off, none is lost.
        ensures whole { IsInDocumentOrder (nodes_of read.now.nodes.items) → IfOk result (λ document. listed None (tree_of (state_of document)) ≡ numbered (nodes_of read.now.nodes.items) (map (λ own. own.items) styled.now.styles.items)) }
    {
        Document::answer(alloc, read, styled)
    }

    // The state that a document begins with, or why it is refused. What follows from that for the roots, the numbers
    // and the tree is left to `from_read`.
    fn answer(alloc: Global, read: &ReadDocument, styled: &Styled) -> Result<Document, EditError>
        requires shaped { IsShaped (nodes_of read.now.nodes.items) }
        requires each { length styled.now.styles.items ≡ length read.now.nodes.items }
        ensures { Opens (nodes_of read.now.nodes.items) (map (λ own. own.items) styled.now.styles.items) result }
    {
        if read.nodes.len() > GREATEST_COUNT as usize {
            return Err(EditError::TooManyNodes(GREATEST_COUNT));
        }
        check_depths(alloc, &read.nodes)?;
        let children = children_of(alloc, &read.nodes, 0)?;
        let document = Document::filled(alloc, &read.nodes, &styled.styles, children)?;
        Ok(document)
    }

    /// The document of these nodes, each with its own declarations and its children.
    fn filled(
        alloc: Global,
        nodes: &[ReadNode],
        styles: &[Declarations],
        lists: Vec<NodeNumbers>,
    ) -> Result<Document, AllocError>
        requires few { length nodes.now ≤ greatest_count }
        requires follow { FollowParents (nodes_of nodes.now) }
        requires styles { length styles.now ≡ length nodes.now }
        requires count { length lists.items ≡ length nodes.now }
        requires lists { (place : ℕ) → numbers_at lists.items place ≡ children_from 0 place (nodes_of nodes.now) }
        ensures { IfOk result (λ document. AreSame (state_of document) (opened (nodes_of nodes.now) (map (λ own. own.items) styles.now))) }
    {
        let mut document = Document::empty(alloc);
        for children in lists {
            let place = document.next as usize;
            let node = node_of(alloc, &nodes[place], &styles[place], children)?;
            document.add(node)?;
        }
        Ok(document)
    }
}
