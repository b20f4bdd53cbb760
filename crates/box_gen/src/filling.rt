//! A block container while it is filled from left to right (CSS 2, 9.2.1.1).

ghost use Rattle.std.specs.Prelude.{◌≤◌, length};

use crate::opened::Opened;
use crate::paragraph::{anonymous_style, own_name, paragraph};
use crate::role::Role;
use crate::run::Run;
use crate::tree::{BoxNode, BoxTree, BoxTrees, Content};
use fragment_types::{BoxName, Item};
use letters::SharedText;
use std::alloc::{AllocError, Global};
use std::mem;
use style_types::SharedStyle;

/// A block container of this node and style, with what is put so far: the boxes up to the last block-level one, how many of
/// them are anonymous, the inline content behind them, and the inline boxes that are open, the innermost last.
#[derive(Drop)]
pub struct Filling {
    pub node: u32,
    pub style: SharedStyle,
    pub boxes: BoxTrees,
    pub anonymous: usize,
    pub run: Run,
    pub opened: Vec<Opened>,
    ghost counted: { anonymous ≤ length boxes.items },
}

impl Filling {
    ghost use Rattle.std.specs.Prelude.{◌≡◌, IfOk, true, false, [], ◌∷◌};
    ghost use Rattle.std.specs.String.{string_bytes};
    ghost use Rattle.box_gen.specs.Tree.{boxes_of};
    ghost use Rattle.box_gen.specs.Parts as part;
    ghost use Rattle.box_gen.specs.Building.{filling_of, no_filling, with_run, filled, Puts};

    /// With nothing put.
    pub fn new(alloc: Global, node: u32, style: &SharedStyle) -> Result<Filling, AllocError>
        ensures { IfOk result (λ filling. filling_of filling ≡ no_filling node style.now) }
    {
        Ok(Filling {
            node,
            style: style.clone()?,
            boxes: Vec::new(alloc),
            anonymous: 0,
            run: Run::new(alloc),
            opened: Vec::new(alloc),
        })
    }

    /// Makes room for what so many nodes put, of which the first has this role: for a text alone, or for a box of each node.
    pub fn make_room(&mut self, role: Role, count: usize) -> Result<(), AllocError>
        ensures { IfOk result (λ _. filling_of self.new ≡ filling_of self.old) }
    {
        match role {
            Role::Words if count == 1 => self.run.items.reserve_exact(1)?,
            Role::BlockLevel => self.boxes.reserve_exact(count)?,
            Role::Words | Role::Nothing | Role::LineBreak | Role::InlineBox | Role::Atom => {}
        }
        Ok(())
    }

    /// Puts a text.
    pub fn put_text(
        &mut self,
        node: u32,
        text: &SharedText,
        style: &SharedStyle,
    ) -> Result<(), AllocError>
        ensures { IfOk result (λ _. Puts (filling_of self.old) (part.words node (string_bytes text.now) style.now ∷ []) (filling_of self.new)) }
    {
        self.run.put_text(node, text, style)?;
        Ok(())
    }

    /// Puts a line break.
    pub fn put_break(&mut self, node: u32) -> Result<(), AllocError>
        ensures { IfOk result (λ _. Puts (filling_of self.old) (part.line_break node ∷ []) (filling_of self.new)) }
    {
        self.run.put_item(Item::Break { node }, false)?;
        Ok(())
    }

    /// Puts an atom with its box.
    pub fn put_atom(&mut self, node: u32, atom: BoxTree) -> Result<(), AllocError>
        ensures { IfOk result (λ _. Puts (filling_of self.old) (part.atom node (boxes_of atom) ∷ []) (filling_of self.new)) }
    {
        self.run.put_atom(own_name(node), atom)?;
        Ok(())
    }

    /// An inline box starts.
    pub fn start(&mut self, node: u32, style: &SharedStyle) -> Result<(), AllocError>
        ensures { IfOk result (λ _. Puts (filling_of self.old) (part.starts node style.now ∷ []) (filling_of self.new)) }
    {
        self.run.put_begin(node, style, true)?;
        self.opened.push(Opened {
            node,
            style: style.clone()?,
        })?;
        Ok(())
    }

    /// The innermost inline box stops. One that a block-level box has cut counts as white space.
    pub fn stop(&mut self, node: u32, is_cut: bool) -> Result<(), AllocError>
        ensures { IfOk result (λ _. Puts (filling_of self.old) (part.stops node is_cut ∷ []) (filling_of self.new)) }
    {
        let end = Item::Close { node, closes: true };
        self.run.put_item(end, is_cut)?;
        self.opened.pop();
        Ok(())
    }

    /// Puts a block-level box, which ends the run: the inline boxes that are open end before it, and begin again behind it.
    pub fn put_block(&mut self, alloc: Global, block: BoxTree) -> Result<(), AllocError>
        ensures { IfOk result (λ _. Puts (filling_of self.old) (part.block_level (boxes_of block) ∷ []) (filling_of self.new)) }
    {
        self.run.put_closed(&self.opened)?;
        self.end_run(alloc)?;
        self.boxes.push(block)?;
        self.run.put_opened_again(&self.opened)?;
        Ok(())
    }

    /// The box of the container, which has all its content.
    pub fn finished(mut self, alloc: Global) -> Result<BoxTree, AllocError>
        ensures { IfOk result (λ tree. boxes_of tree ≡ filled (filling_of self) []) }
    {
        let name = own_name(self.node);
        if self.boxes.is_empty() {
            return Ok(paragraph(name, self.style, self.run));
        }
        self.end_run(alloc)?;
        Ok(BoxTree {
            node: BoxNode {
                name,
                style: self.style,
                content: Content::Blocks,
            },
            children: self.boxes,
        })
    }

    // The run made an anonymous block, but where it is white space alone.
    fn end_run(&mut self, alloc: Global) -> Result<(), AllocError>
        ensures { IfOk result (λ _. filling_of self.new ≡ with_run (filling_of self.old)) }
    {
        let run = mem::replace(&mut self.run, Run::new(alloc));
        if !run.blank {
            let name = BoxName {
                node: self.node,
                ordinal: self.anonymous + 1,
            };
            let style = SharedStyle::new(alloc, anonymous_style(&self.style))?;
            self.boxes.push(paragraph(name, style, run))?;
            self.anonymous += 1;
        }
        Ok(())
    }
}
