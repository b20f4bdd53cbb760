//! The positions of a small document.

use rel_shift::{has_relative, positions};
use std::alloc::{AllocError, Global};
use std::test::*;
use style_types::{
    Display, Insets, Position, SharedStyle, Size, Style, StyledKind, StyledNode, StyledNodes,
};

const INSETS: Insets = Insets {
    top: Size::Length(320),
    right: Size::Auto,
    bottom: Size::Auto,
    left: Size::Percent(1_000),
};

fn shown(display: Display) -> Style {
    Style {
        display,
        ..Style::initial()
    }
}

fn relative(display: Display) -> Style {
    Style {
        relative: true,
        insets: INSETS,
        ..shown(display)
    }
}

fn element(
    alloc: Global,
    node: u32,
    style: Style,
    children: StyledNodes,
) -> Result<StyledNode, AllocError> {
    Ok(StyledNode {
        node,
        kind: StyledKind::Element,
        style: SharedStyle::new(alloc, style)?,
        children,
    })
}

fn leaf(
    alloc: Global,
    node: u32,
    kind: StyledKind,
    style: Style,
) -> Result<StyledNode, AllocError> {
    Ok(StyledNode {
        node,
        kind,
        style: SharedStyle::new(alloc, style)?,
        children: StyledNodes::new(alloc),
    })
}

// A block with an inline box, which holds an inline-block and a `br`, and with a hidden element. Of the inline box, the `br` and
// the hidden element `position` is relative.
fn document(alloc: Global) -> Result<StyledNode, AllocError> {
    let mut inline = StyledNodes::new(alloc);
    inline.push(leaf(alloc, 2, StyledKind::Element, shown(Display::InlineBlock))?)?;
    inline.push(leaf(alloc, 3, StyledKind::Break, relative(Display::Inline))?)?;
    let mut block = StyledNodes::new(alloc);
    block.push(element(alloc, 1, relative(Display::Inline), inline)?)?;
    block.push(leaf(alloc, 4, StyledKind::Element, relative(Display::Hidden))?)?;
    element(alloc, 0, shown(Display::FlowRoot), block)
}

fn position(node: u32, parent: Option<u32>, insets: Option<Insets>) -> Position {
    Position {
        node,
        parent,
        holder: parent.and(Some(0)),
        insets,
    }
}

/// An inline box is no holder, a `br` has no insets, and what is hidden isn't listed.
#[test]
fn positions_are_listed(rt: HostRuntime) -> Result<(), Fail> {
    let root = document(rt.alloc())?;
    assert!(rt; has_relative(&root));
    let listed = positions(rt.alloc(), &root)?;
    assert_eq!(rt; listed.len(), 4);
    assert_eq!(rt; listed.get(0).copied(), Some(position(0, None, None)));
    assert_eq!(rt;
        listed.get(1).copied(),
        Some(position(1, Some(0), Some(INSETS)))
    );
    assert_eq!(rt; listed.get(2).copied(), Some(position(2, Some(1), None)));
    assert_eq!(rt; listed.get(3).copied(), Some(position(3, Some(1), None)));
    Ok(())
}

/// A hidden element makes no difference.
#[test]
fn what_is_hidden_is_not_relative(rt: HostRuntime) -> Result<(), Fail> {
    let alloc = rt.alloc();
    let mut block = StyledNodes::new(alloc);
    block.push(leaf(alloc, 1, StyledKind::Element, relative(Display::Hidden))?)?;
    let root = element(alloc, 0, shown(Display::FlowRoot), block)?;
    assert!(rt; !has_relative(&root));
    Ok(())
}
