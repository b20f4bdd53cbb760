//! The items of a paragraph that is prepared.

ghost use Rattle.std.specs.Prelude.{◌≡◌, IfOk};

use fragment_types::{BoxName, Glyphs, UnitKind};
use std::alloc::{AllocError, Global};
use std::marker::Model;

/// What an item is. Places are of characters in the node's whole text; lengths are in units of 1/64 px. There is an item for
/// each character of most texts, so the fields stand in an order that leaves no gaps in memory.
#[derive(Debug, Drop)]
pub enum PreparedContent {
    /// A unit of text; `space` where it is the single character U+0020.
    Unit {
        form: UnitKind,
        space: bool,
        node: u32,
        first: u32,
        end: u32,
        advance: i64,
        glyphs: Glyphs,
    },
    /// A combined run; `natural` is the sum of its plain advances.
    Combined {
        node: u32,
        first: u32,
        end: u32,
        advance: i64,
        natural: i64,
        glyphs: CombinedGlyphs,
    },
    /// An inline-block.
    Atom {
        name: BoxName,
    },
    /// A `br`.
    Break {
        node: u32,
    },
}

/// The glyphs of a combined run behind a pointer, since few items are such runs. A contract sees the glyphs.
#[derive(Debug, Drop)]
pub struct CombinedGlyphs {
    kept: Box<Glyphs>,
}

impl Model for CombinedGlyphs {
    ghost use Rattle.std.specs.Prelude.{ℕ, List};

    ghost Value = { List (List ℕ) };

    ghost view = { λ glyphs. glyphs.kept.value };
}

impl CombinedGlyphs {
    pub(crate) fn new(alloc: Global, glyphs: Glyphs) -> Result<CombinedGlyphs, AllocError>
        ensures { IfOk result (λ kept. kept ≡ glyphs) }
    {
        Ok(CombinedGlyphs {
            kept: Box::new(alloc, glyphs)?,
        })
    }

    /// The glyphs.
    pub fn glyphs(&self) -> &Glyphs
        ensures { result.now ≡ self.now }
    {
        &self.kept
    }
}

/// An item of a prepared paragraph, in 48 bytes.
#[derive(Debug, Drop)]
pub struct PreparedItem {
    /// The place of the paragraph's item that it comes from.
    pub source: u32,
    /// The least level of what stands between it and the item before it in its bidi paragraph and is no item (UAX 9, X9
    /// and L2).
    pub apart: Option<u8>,
    pub what: PreparedContent,
}

const _: () = prove!(size_of::<PreparedItem>() == 48);

/// The items of a prepared paragraph in order.
pub type PreparedItems = Vec<PreparedItem>;
