//! One item more of a paragraph, and the room for it.

ghost use Rattle.std.specs.Prelude.{◌≡◌, ◌+◌, ℕ, [], ◌∷◌, ◌++◌, None, OnOk};
ghost use Rattle.para_prepare.specs.Flat.{HasRoom};
ghost use Rattle.para_prepare.specs.Preparation.{HasBounds};

use crate::item::{PreparedContent, PreparedItem};
use crate::lists::FlatLists;
use std::alloc::AllocError;
use wm_chars::{BidiClass, BreakClass};

impl FlatLists<'_> {
    /// Makes room for so many items more.
    pub(crate) fn reserve(&mut self, count: usize) -> Result<(), AllocError>
        ensures room { OnOk result (HasRoom count self.new) }
        ensures items { self.new.items.items ≡ self.old.items.items }
        ensures classes { self.new.classes.items ≡ self.old.classes.items }
        ensures breaks { self.new.breaks.items ≡ self.old.breaks.items }
        ensures flat { self.new.flat ≡ self.old.flat }
        ensures bare { self.new.bare ≡ self.old.bare }
    {
        self.items.reserve(count)?;
        self.classes.reserve(count)?;
        self.breaks.reserve(count)?;
        Ok(())
    }

    /// Adds an item.
    pub(crate) fn add(
        &mut self,
        source: u32,
        class: BidiClass,
        break_class: Option<BreakClass>,
        what: PreparedContent,
    ) -> Result<(), AllocError>
        requires { HasBounds what }
        ensures items { OnOk result (self.new.items.items ≡ self.old.items.items ++ (record { source = source; apart = None; what = what }) ∷ []) }
        ensures classes { OnOk result (self.new.classes.items ≡ self.old.classes.items ++ class ∷ []) }
        ensures breaks { OnOk result (self.new.breaks.items ≡ self.old.breaks.items ++ break_class ∷ []) }
        ensures flat { OnOk result (self.new.flat ≡ self.old.flat) }
        ensures bare { OnOk result (self.new.bare ≡ self.old.bare) }
    {
        self.reserve(1)?;
        self.put(source, class, break_class, what);
        Ok(())
    }

    /// Adds an item for which there is room.
    #[inline(always)]
    pub(crate) fn put(
        &mut self,
        source: u32,
        class: BidiClass,
        break_class: Option<BreakClass>,
        what: PreparedContent,
    )
        requires bounds { HasBounds what }
        requires room { HasRoom 1 self.old }
        ensures room { (count : ℕ) → HasRoom (count + 1) self.old → HasRoom count self.new }
        ensures items { self.new.items.items ≡ self.old.items.items ++ (record { source = source; apart = None; what = what }) ∷ [] }
        ensures classes { self.new.classes.items ≡ self.old.classes.items ++ class ∷ [] }
        ensures breaks { self.new.breaks.items ≡ self.old.breaks.items ++ break_class ∷ [] }
        ensures flat { self.new.flat ≡ self.old.flat }
        ensures bare { self.new.bare ≡ self.old.bare }
    {
        self.items.push_reserved(PreparedItem {
            source,
            apart: None,
            what,
        });
        self.classes.push_reserved(class);
        self.breaks.push_reserved(break_class);
    }
}
