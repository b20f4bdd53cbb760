//! Where the reading of a selector stops. What it is refused for hangs on what is left alone, and is told last.

ghost use Rattle.css_sheet.specs.declared.halt.Stuck.TheVariants as kinds;

use reading::{Kind, Stop};

/// A selector doesn't go on.
#[derive(Clone, Copy, Debug, Drop)]
pub(crate) enum Stuck {
    Stuck,
}

impl Kind for Stuck {
    ghost syntax = { kinds.Stuck };

    fn syntax() -> Stuck {
        Stuck::Stuck
    }
}

/// The bytes that are left where a selector doesn't go on, or want of memory.
pub(crate) type Halt<'a> = Stop<'a, Stuck>;
