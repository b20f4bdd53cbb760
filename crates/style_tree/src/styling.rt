//! The style of each node of a document (CSS 2, 6.1; CSS Writing Modes 4, 3.2 and 8).

ghost use Rattle.std.specs.Prelude.{◌≡◌, IfOk, Some};
ghost use Rattle.style_types.specs.Style.{IsBounded};
ghost use Rattle.style_types.specs.Tree.{Nodes, all_nodes_of, before, nodes_of};
ghost use Rattle.style_types.specs.Tree as trees;
ghost use Rattle.dom_store.specs.State.{IsRooted, IsSaidState, entry_of, state_of, tree_to, what_of};
ghost use Rattle.cascade.specs.Index.{index_rules};
ghost use Rattle.cascade.specs.Kept.{IsKept, kept_state};
ghost use Rattle.cascade.specs.Winners.{AreSaidRules};
ghost use Rattle.style_tree.specs.Said.{AreSaidRules-prop, IsSaidState-prop};
ghost use Rattle.style_tree.specs.Styling as definitions;
ghost use Rattle.style_tree.specs.Styling.{AreBounded, IsBodyOf, IsHtmlOf, styled_document, styled_in, styled_one};

use crate::kind::kind_of;
use crate::root::{root_style, unturned};
use cascade::{KeptLine, RuleIndex};
use computed::compute;
use dom_store::{Document, Node, NodeKind};
use std::alloc::{AllocError, Global};
use style_types::{SharedStyle, Style, StyledNode, StyledNodes};

/// Each node of a document with its style, as a tree: `html`, in it `body`, and in this all others, in document order.
/// A text has the style of its parent. The nodes at most 64 deep are in it, as they all are in a document. Linear in the
/// count of nodes, but for the rules that each is tried against.
pub fn styled(
    alloc: Global,
    document: &Document,
    rules: &RuleIndex,
) -> Result<StyledNode, AllocError>
    requires rooted { IsRooted (state_of document.now) }
    requires rules { AreSaidRules (index_rules rules.now) }
    requires own { IsSaidState (state_of document.now) }
    ensures styled { IfOk result (λ root. nodes_of root ≡ styled_document (index_rules rules.now) (state_of document.now)) }
    ensures bounded { IfOk result (λ root. AreBounded (nodes_of root)) }
{
    let styling = Styling { document, rules };
    let html = styling.html_style(alloc)?;
    let body = styling.body_style(alloc, &html)?;
    let body_node = styling.body_node(alloc, &body)?;
    let root = styling.root(alloc, root_style(&html, &body), body_node)?;
    Ok(root)
}

/// A document, and the rules that its nodes are styled by: the numbers of both are such as a style sheet can say.
#[derive(Clone, Copy)]
pub struct Styling<'a> {
    pub document: &'a Document,
    pub rules: &'a RuleIndex,

    ghost are_said_rules: { AreSaidRules (index_rules rules.now) } by { AreSaidRules-prop (index_rules rules.now) },
    ghost is_said_state: { IsSaidState (state_of document.now) } by { IsSaidState-prop (state_of document.now) },
}

impl<'a> Styling<'a> {
    /// The computed style of `html`.
    pub fn html_style(&self, alloc: Global) -> Result<Style, AllocError>
        ensures style { IfOk result (λ style. style ≡ definitions.html_style (index_rules self.now.rules.now) (state_of self.now.document.now)) }
        ensures bounded { IfOk result (λ style. IsBounded style) }
    {
        let parent = Style::initial();
        let winners = self.rules.winners(alloc, self.document, 0, &parent)?;
        Ok(compute(&parent, &winners))
    }

    /// The style of `body`, where `html` has this one.
    pub fn body_style(&self, alloc: Global, html: &Style) -> Result<Style, AllocError>
        requires html { IsBounded html.now }
        ensures style { IfOk result (λ style. style ≡ definitions.unturned html.now (definitions.winners_at (index_rules self.now.rules.now) (state_of self.now.document.now) 1 html.now)) }
        ensures bounded { IfOk result (λ style. IsBounded style) }
    {
        let winners = self.rules.winners(alloc, self.document, 1, html)?;
        Ok(unturned(html, &winners))
    }

    // `body` in this style, with all inside it.
    fn body_node(&self, alloc: Global, style: &Style) -> Result<StyledNode, AllocError>
        requires rooted { IsRooted (state_of self.now.document.now) }
        requires style { IsBounded style.now }
        ensures styled { IfOk result (λ made. IsBodyOf (index_rules self.now.rules.now) (state_of self.now.document.now) style.now (nodes_of made)) }
        ensures bounded { IfOk result (λ made. AreBounded (nodes_of made)) }
    {
        let body = self.document.node(1).unwrap();
        let mut kept = KeptLine::new(self.document, body);
        let own = SharedStyle::new(alloc, *style)?;
        let children = self.nodes(alloc, &mut kept, &body.children, &own, 62)?;
        let made = made(1, &body.kind, own, children)?;
        Ok(made)
    }

    // `html` in this style, with `body` inside it.
    fn root(&self, alloc: Global, style: Style, body: StyledNode) -> Result<StyledNode, AllocError>
        requires rooted { IsRooted (state_of self.now.document.now) }
        requires style { IsBounded style }
        requires body { AreBounded (nodes_of body) }
        ensures styled { IfOk result (λ made. IsHtmlOf (state_of self.now.document.now) style (nodes_of body) (nodes_of made)) }
        ensures bounded { IfOk result (λ made. AreBounded (nodes_of made)) }
    {
        let html = self.document.node(0).unwrap();
        let mut children = StyledNodes::with_capacity(alloc, 1)?;
        children.push(body)?;
        let own = SharedStyle::new(alloc, style)?;
        let made = made(0, &html.kind, own, children)?;
        Ok(made)
    }

    /// The style of the node of this number, of which the parent has this style.
    pub fn own_style(
        &self,
        alloc: Global,
        number: u32,
        node: &Node,
        parent: &Style,
    ) -> Result<Style, AllocError>
        requires parent { IsBounded parent.now }
        ensures style { IfOk result (λ style. style ≡ definitions.style_at (index_rules self.now.rules.now) (state_of self.now.document.now) number (what_of node.now.kind) parent.now) }
        ensures bounded { IfOk result (λ style. IsBounded style) }
    {
        match node.kind {
            NodeKind::Element { .. } => {
                let winners = self.rules.winners(alloc, self.document, number, parent)?;
                Ok(compute(parent, &winners))
            }
            NodeKind::Text { .. } => Ok(*parent),
        }
    }

    // The style of a node in hand, of which the parent has this style, by the line that is kept from the node before.
    fn style_in(
        &self,
        alloc: Global,
        kept: &mut KeptLine<'a>,
        number: u32,
        node: &'a Node,
        parent: &SharedStyle,
    ) -> Result<SharedStyle, AllocError>
        requires here { (state_of self.now.document.now).node_at number ≡ Some (entry_of node.now) }
        requires kept { IsKept kept.old }
        requires document { kept_state kept.old ≡ state_of self.now.document.now }
        requires parent { IsBounded parent.now }
        ensures kept { IsKept kept.new }
        ensures same { kept_state kept.new ≡ kept_state kept.old }
        ensures style { IfOk result (λ style. style ≡ definitions.style_at (index_rules self.now.rules.now) (state_of self.now.document.now) number (what_of node.now.kind) parent.now) }
        ensures bounded { IfOk result (λ style. IsBounded style) }
    {
        let NodeKind::Element { .. } = node.kind else {
            return parent.clone();
        };
        let inherited: &Style = parent;
        let winners = self.rules.winners_in(alloc, kept, number, node, inherited)?;
        let own = SharedStyle::new(alloc, compute(inherited, &winners))?;
        Ok(own)
    }

    // A node with its style and all inside it, down to a depth.
    #[cycle(node)]
    fn node(
        &self,
        alloc: Global,
        kept: &mut KeptLine<'a>,
        number: u32,
        node: &'a Node,
        parent: &SharedStyle,
        depth: usize,
    ) -> Result<StyledNode, AllocError>
        requires here { (state_of self.now.document.now).node_at number ≡ Some (entry_of node.now) }
        requires kept { IsKept kept.old }
        requires document { kept_state kept.old ≡ state_of self.now.document.now }
        requires parent { IsBounded parent.now }
        ensures kept { IsKept kept.new }
        ensures same { kept_state kept.new ≡ kept_state kept.old }
        ensures styled { IfOk result (λ made. (next : Nodes) → before made next
            ≡ styled_one (index_rules self.now.rules.now) (state_of self.now.document.now) parent.now number (what_of node.now.kind) (tree_to depth (state_of self.now.document.now) node.now.children.items) next) }
        ensures bounded { IfOk result (λ made. AreBounded (nodes_of made)) }
    {
        let style = self.style_in(alloc, kept, number, node, parent)?;
        let children = self.nodes(alloc, kept, &node.children, &style, depth)?;
        Ok(StyledNode {
            node: number,
            kind: kind_of(&node.kind)?,
            style,
            children,
        })
    }

    // The nodes of these numbers in an element of this style, and all inside them, down to a depth.
    #[cycle(node)]
    fn nodes(
        &self,
        alloc: Global,
        kept: &mut KeptLine<'a>,
        numbers: &[u32],
        parent: &SharedStyle,
        depth: usize,
    ) -> Result<StyledNodes, AllocError>
        requires kept { IsKept kept.old }
        requires document { kept_state kept.old ≡ state_of self.now.document.now }
        requires parent { IsBounded parent.now }
        ensures kept { IsKept kept.new }
        ensures same { kept_state kept.new ≡ kept_state kept.old }
        ensures styled { IfOk result (λ all. all_nodes_of all.items ≡ styled_in (index_rules self.now.rules.now) (state_of self.now.document.now) parent.now (tree_to depth (state_of self.now.document.now) numbers.now)) }
        ensures bounded { IfOk result (λ all. AreBounded (all_nodes_of all.items)) }
    {
        if depth == 0 {
            return Ok(StyledNodes::new(alloc));
        }
        let mut all = StyledNodes::with_capacity(alloc, numbers.len())?;
        for number in numbers {
            if let Some(node) = self.document.node(*number) {
                all.push(self.node(alloc, kept, *number, node, parent, depth - 1)?)?;
            }
        }
        Ok(all)
    }
}

// A node of this number and style, with these inside it.
fn made(
    number: u32,
    kind: &NodeKind,
    style: SharedStyle,
    children: StyledNodes,
) -> Result<StyledNode, AllocError>
    requires style { IsBounded style }
    requires children { AreBounded (all_nodes_of children.items) }
    ensures styled { IfOk result (λ made. nodes_of made ≡ trees.node number (definitions.kind_of (what_of kind.now)) style (all_nodes_of children.items) trees.none) }
    ensures bounded { IfOk result (λ made. AreBounded (nodes_of made)) }
{
    Ok(StyledNode {
        node: number,
        kind: kind_of(kind)?,
        style,
        children,
    })
}
