//! The rules of the default sheet, in hand (docs/PROFILE/sheets.md).

ghost use Rattle.std.specs.Prelude.{◌≡◌};
ghost use Rattle.css_sheet.specs.Default.{default_rules};
ghost use Rattle.css_types.specs.Rule.{rulings_of};

use crate::filed::Filed;
use css_sheet::default_sheet;
use std::alloc::{AllocError, Global};

/// The rules of the default sheet.
#[derive(Drop)]
pub(crate) struct Defaults {
    pub(crate) filed: Filed,

    ghost are_default: { rulings_of filed.rules.items ≡ default_rules },
}

impl Defaults {
    /// Reads them, and files them.
    pub(crate) fn new(alloc: Global) -> Result<Defaults, AllocError> {
        let rules = default_sheet(alloc)?;
        let filed = Filed::new(alloc, rules)?;
        Ok(Defaults { filed })
    }
}
