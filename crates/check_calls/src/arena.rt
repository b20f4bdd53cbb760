//! Boxes in an arena: each of its calls once, with memory enough.

ghost use Rattle.slab.specs.Slab.{ContainsKey};

use box_arena::{BoxArena, BoxKey, Constraint, count};
use box_gen::{BoxNode, BoxTree, Content};
use fragment_types::{BoxName, Fragment, FragmentKind};
use std::alloc::{AllocError, Global};
use std::rc::Rc;
use std::test::*;
use style_types::{SharedStyle, Style};
use wm_modes::FlowRect;

const ANY: Constraint = Constraint {
    inline: Some(640),
    block: None,
};

const DEFINITE: Constraint = Constraint {
    inline: Some(640),
    block: Some(320),
};

fn node(alloc: Global, number: u32) -> Result<BoxNode, AllocError> {
    Ok(BoxNode {
        name: BoxName {
            node: number,
            ordinal: 0,
        },
        style: SharedStyle::new(alloc, Style::initial())?,
        content: Content::Blocks,
    })
}

fn measured(alloc: Global, min: i64) -> Result<Fragment, AllocError> {
    Ok(Fragment {
        name: BoxName {
            node: 1,
            ordinal: 0,
        },
        rect: FlowRect {
            i: 0,
            b: 0,
            inline: 0,
            block: 0,
        },
        kind: FragmentKind::Measure { min, max: min },
        children: Rc::new(alloc, Vec::new(alloc))?,
    })
}

// What is kept, by its least size.
fn kept(arena: &BoxArena<u32>, key: BoxKey, c: Constraint) -> Option<i64>
    requires { ContainsKey arena.now key }
{
    match arena.kept(key, c)?.kind {
        FragmentKind::Measure { min, max: _ } => Some(min),
        _ => None,
    }
}

#[test]
fn what_is_kept(rt: HostRuntime) -> Result<(), Fail> {
    let mut arena: BoxArena<u32> = BoxArena::new(rt.alloc());
    arena.reserve(1)?;
    let key = arena.insert_reserved(node(rt.alloc(), 1)?);
    arena.keep(key, ANY, measured(rt.alloc(), 64)?)?;
    arena.keep(key, DEFINITE, measured(rt.alloc(), 128)?)?;
    assert_eq!(rt; kept(&arena, key, ANY), Some(64));
    assert_eq!(rt; kept(&arena, key, DEFINITE), Some(128));
    arena.mark(key);
    assert_eq!(rt; kept(&arena, key, ANY), None);
    arena.keep(key, ANY, measured(rt.alloc(), 192)?)?;
    assert_eq!(rt; kept(&arena, key, ANY), Some(192));
    assert_eq!(rt; kept(&arena, key, DEFINITE), None);
    arena.keep_text(key, 7);
    assert_eq!(rt; arena.text(key).copied(), Some(7));
    let old = arena.restyle(key, node(rt.alloc(), 2)?);
    assert_eq!(rt; old.name.node, 1);
    assert_eq!(rt; arena.node(key).name.node, 2);
    assert_eq!(rt; arena.text(key).copied(), None);
    assert_eq!(rt; kept(&arena, key, ANY), None);
    arena.release(key);
    Ok(())
}

#[test]
fn a_tree_is_edited(rt: HostRuntime) -> Result<(), Fail> {
    let mut arena: BoxArena<u32> = BoxArena::new(rt.alloc());
    arena.reserve(2)?;
    let parent = arena.insert_reserved(node(rt.alloc(), 0)?);
    let child = arena.insert_reserved(node(rt.alloc(), 1)?);
    arena.attach(parent, None, child);
    assert_eq!(rt; arena.first(parent), Some(child));
    assert_eq!(rt; arena.parent(child), Some(parent));
    assert_eq!(rt; arena.next(child), None);
    arena.detach(child);
    assert_eq!(rt; arena.first(parent), None);
    arena.stale(parent);
    arena.forget();
    arena.release(child);
    Ok(())
}

#[test]
fn a_tree_is_planted(rt: HostRuntime) -> Result<(), Fail> {
    let mut arena: BoxArena<u32> = BoxArena::new(rt.alloc());
    let tree = BoxTree {
        node: node(rt.alloc(), 1)?,
        children: Vec::new(rt.alloc()),
    };
    let boxes = count(&tree);
    assert_eq!(rt; boxes, 1);
    arena.reserve(boxes)?;
    let root = arena.plant(tree);
    assert_eq!(rt; arena.node(root).name.node, 1);
    assert_eq!(rt; arena.parent(root), None);
    Ok(())
}
