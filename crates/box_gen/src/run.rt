//! Inline content that stands together.

ghost use Rattle.std.specs.Prelude.{◌≡◌, IfOk, true, false, [], ◌∷◌, reverse};
ghost use Rattle.std.specs.String.{string_bytes};
ghost use Rattle.fragment_types.specs.Item as item;
ghost use Rattle.fragment_types.specs.Item.{entry_of};
ghost use Rattle.box_gen.specs.Tree.{boxes_of, none};
ghost use Rattle.box_gen.specs.Boxes.{closed, is_blank, is_space, no_run, opened_again};
ghost use Rattle.box_gen.specs.Building.{run_of, and_then, run_with};

use crate::opened::Opened;
use crate::tree::{BoxTree, BoxTrees};
use fragment_types::{BoxName, Item, Items};
use letters::SharedText;
use std::alloc::{AllocError, Global};
use style_types::SharedStyle;

/// Inline content that stands together: its items, the boxes of its atoms, and whether it is white space alone.
#[derive(Drop)]
pub struct Run {
    pub items: Items,
    pub atoms: BoxTrees,
    pub blank: bool,
}

impl Run {
    /// A run of nothing.
    pub fn new(alloc: Global) -> Run
        ensures { run_of result ≡ no_run }
    {
        Run {
            items: Vec::new(alloc),
            atoms: Vec::new(alloc),
            blank: true,
        }
    }

    /// Puts a text at its end.
    pub fn put_text(
        &mut self,
        node: u32,
        text: &SharedText,
        style: &SharedStyle,
    ) -> Result<(), AllocError>
        ensures { IfOk result (λ _. run_of self.new ≡ and_then (run_of self.old) (run_with (item.text node (string_bytes text.now) style.now ∷ []) none (is_blank (string_bytes text.now)))) }
    {
        self.items.push(Item::Text {
            node,
            text: text.clone()?,
            style: style.clone()?,
        })?;
        self.blank &= is_blank(text);
        Ok(())
    }

    /// Puts an item at its end, which counts as white space or doesn't.
    pub fn put_item(&mut self, item: Item, blank: bool) -> Result<(), AllocError>
        ensures { IfOk result (λ _. run_of self.new ≡ and_then (run_of self.old) (run_with (entry_of item ∷ []) none blank)) }
    {
        self.items.push(item)?;
        self.blank &= blank;
        Ok(())
    }

    /// Puts an atom at its end, the box of this node.
    pub fn put_atom(&mut self, name: BoxName, atom: BoxTree) -> Result<(), AllocError>
        ensures { IfOk result (λ _. run_of self.new ≡ and_then (run_of self.old) (run_with (item.atom name ∷ []) (boxes_of atom) false)) }
    {
        self.atoms.push(atom)?;
        self.put_item(Item::Atom { name }, false)
    }

    /// Puts where a piece of an inline box begins, with its inline-start edges or without. That counts as white space.
    pub fn put_begin(
        &mut self,
        node: u32,
        style: &SharedStyle,
        opens: bool,
    ) -> Result<(), AllocError>
        ensures { IfOk result (λ _. run_of self.new ≡ and_then (run_of self.old) (run_with (item.begins node style.now opens ∷ []) none true)) }
    {
        let style = style.clone()?;
        self.put_item(Item::Open { node, style, opens }, true)
    }

    /// Puts where these inline boxes end without their inline-end edges, the innermost first. The last of the list is the innermost.
    pub fn put_closed(&mut self, opened: &[Opened]) -> Result<(), AllocError>
        ensures { IfOk result (λ _. run_of self.new ≡ and_then (run_of self.old) (run_with (closed (reverse opened.now)) none true)) }
    {
        for inline_box in opened.iter().rev() {
            let end = Item::Close {
                node: inline_box.node,
                closes: false,
            };
            self.put_item(end, true)?;
        }
        Ok(())
    }

    /// Puts where they begin again without their inline-start edges, the outermost first.
    pub fn put_opened_again(&mut self, opened: &[Opened]) -> Result<(), AllocError>
        ensures { IfOk result (λ _. run_of self.new ≡ and_then (run_of self.old) (run_with (opened_again (reverse opened.now)) none true)) }
    {
        for inline_box in opened {
            self.put_begin(inline_box.node, &inline_box.style, false)?;
        }
        Ok(())
    }
}

/// Whether a text is white space alone: tabs, line feeds, form feeds, carriage returns and spaces (CSS 2, 16.6.1).
pub fn is_blank(text: &str) -> bool
    ensures { result ≡ is_blank text.now }
{
    text.as_bytes().iter().all(|byte| is_space(*byte))
}

// Tab, line feed, form feed, carriage return and space (CSS 2, 16.6.1).
fn is_space(byte: u8) -> bool
    ensures { result ≡ is_space byte }
{
    matches!(byte, b'\t' | b'\n' | b'\x0C' | b'\r' | b' ')
}
