//! The lists of this crate. A contract sees the items of a list.

use crate::fragment::Fragment;
use crate::item::Item;
use crate::run_unit::RunUnit;

/// The items of a paragraph in order.
pub type Items = Vec<Item>;

/// Fragments in order.
pub type Fragments = Vec<Fragment>;

/// The units of a run from line-left.
pub type RunUnits = Vec<RunUnit>;
