//! The laws between what is read and the grammar, and how specificities compare. These functions do nothing: their
//! contracts are the laws.

ghost use Rattle.std.specs.Prelude.{◌≡◌, ◌↔◌, ℕ, true};
ghost use Rattle.std.specs.Ordering.{is_lt};
ghost use Rattle.reading.specs.Placed.{SpellsPlaced};
ghost use Rattle.reading.specs.Spelling.{Anything};
ghost use Rattle.css_sheet.specs.Grammar as grammar;
ghost use Rattle.css_sheet.specs.Selector as readers;
ghost use Rattle.css_sheet.specs.Sheet as sheets;
ghost use Rattle.css_sheet.specs.Sheet.{Sheet};
ghost use Rattle.css_sheet.specs.Specificity.{IsLessSpecific};
ghost use Rattle.css_sheet.specs.declared.counts.Specificity as counts;

use crate::counts::Specificity;

/// Selectors and sheets are read as they are spelled.
pub fn sheets_spell()
    ensures selectors { SpellsPlaced readers.selector grammar.IsSelector Anything }
    ensures sheets { (end_ : ℕ) (s : Sheet) → SpellsPlaced (sheets.sheet end_ s) (grammar.IsSheet end_ s) Anything }
{}

/// The order of specificities is that of ids first, then of classes, then of types (Selectors 3, 9).
pub fn specificities_compare()
    ensures { (one other : counts.Specificity) → (is_lt (⟦<Specificity as Ord>⟧.cmp one other) ≡ true) ↔ IsLessSpecific one other }
{}
