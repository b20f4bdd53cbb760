//! Texts that are set in boxes: that they are, since each call may answer by its contract that they are not.

ghost use Rattle.std.specs.Prelude.{◌≡◌, IfOk};
ghost use Rattle.box_gen.specs.Tree.{boxes_of, count};
ghost use Rattle.box_arena.specs.Reusing.{IsTree};

use box_arena::{BoxArena, BoxKey, count};
use box_gen::{BoxNode, BoxTree, Content};
use fragment_types::{BoxName, Item};
use letters::SharedText;
use std::alloc::{AllocError, Global};
use std::test::*;
use style_types::{SharedStyle, Style};
use text_boxes::set_text;

#[derive(Drop)]
struct Page {
    arena: BoxArena<u32>,
    root: BoxKey,
}

fn holding(alloc: Global, number: u32, content: Content) -> Result<BoxNode, AllocError> {
    Ok(BoxNode {
        name: BoxName {
            node: number,
            ordinal: 0,
        },
        style: SharedStyle::new(alloc, Style::initial())?,
        content,
    })
}

// A paragraph: the text of a node in an inline box, a text of node 9, and a line break.
fn paragraph(alloc: Global, number: u32, node: u32) -> Result<BoxTree, AllocError>
    ensures { IfOk result (λ made. count (boxes_of made) ≡ 1) }
{
    let style = SharedStyle::new(alloc, Style::initial())?;
    let text = SharedText::new(alloc, "old".to_string(alloc)?)?;
    let items = vec![in alloc;
        Item::Open {
            node: number,
            style: style.clone()?,
            opens: true
        },
        Item::Text {
            node,
            text: text.clone()?,
            style: style.clone()?
        },
        Item::Close {
            node: number,
            closes: false
        },
        Item::Text {
            node: 9,
            text,
            style
        },
        Item::Break { node: 10 },
    ]?;
    Ok(BoxTree {
        node: holding(alloc, number, Content::Inline(items))?,
        children: Vec::new(alloc),
    })
}

// A box of two paragraphs: with the text of node 3, and with that of node 5.
fn planted(alloc: Global) -> Result<Page, AllocError>
    ensures { IfOk result (λ page. IsTree page.arena.slots page.root) }
{
    let tree = BoxTree {
        node: holding(alloc, 0, Content::Blocks)?,
        children: vec![in alloc; paragraph(alloc, 1, 3)?, paragraph(alloc, 2, 5)?]?,
    };
    let mut arena = BoxArena::new(alloc);
    arena.reserve(count(&tree))?;
    let root = arena.plant(tree);
    Ok(Page { arena, root })
}

fn set(alloc: Global, page: &mut Page, node: u32, letters: &str) -> Result<bool, AllocError>
    requires { IsTree page.old.arena.slots page.old.root }
    ensures { IfOk result (λ done. IsTree page.new.arena.slots page.new.root) }
{
    let text = SharedText::new(alloc, letters.to_string(alloc)?)?;
    let done = set_text(alloc, &mut page.arena, page.root, node, &text)?;
    Ok(done)
}

// The items of all paragraphs.
fn told(alloc: Global, page: &Page) -> Result<String, AllocError>
    requires { IsTree page.now.arena.slots page.now.root }
{
    let mut told = String::new(alloc);
    let mut next = page.arena.first(page.root);
    for _ in 0..2 {
        let Some(key) = next else {
            return Ok(told);
        };
        next = page.arena.next(key);
        tell(alloc, &mut told, &page.arena.node(key).content)?;
    }
    Ok(told)
}

fn tell(alloc: Global, told: &mut String, content: &Content) -> Result<(), AllocError> {
    if let Content::Inline(items) = content {
        for item in items {
            told.push_str(&told_item(alloc, item)?)?;
        }
    }
    Ok(())
}

fn told_item(alloc: Global, item: &Item) -> Result<String, AllocError> {
    match item {
        Item::Text { node, text, .. } => format!(in alloc; "{node}:{} ", text.as_str()),
        Item::Open { node, opens, .. } => format!(in alloc; "open {node} {opens} "),
        Item::Close { node, closes } => format!(in alloc; "close {node} {closes} "),
        Item::Atom { name } => format!(in alloc; "atom {} ", name.node),
        Item::Break { node } => format!(in alloc; "break {node}\n"),
    }
}

#[test]
fn a_text_is_set(rt: HostRuntime) -> Result<(), Fail> {
    let alloc = rt.alloc();
    let mut page = planted(alloc)?;
    assert!(rt; set(alloc, &mut page, 3, "new")?);
    // again, one that no box holds, and one that two do
    for node in [3, 4, 9] {
        assert!(rt; !set(alloc, &mut page, node, "new")?, "{node}");
    }
    assert_eq!(rt;
        told(alloc, &page)?.as_str(),
        "open 1 true 3:new close 1 false 9:old break 10\nopen 2 true 5:old close 2 false 9:old break 10\n"
    );
    Ok(())
}
