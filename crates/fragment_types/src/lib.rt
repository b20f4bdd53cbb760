//! What stands in a paragraph, and what layout makes of it: items, and trees of fragments in coordinates of the flow
//! (docs/PROFILE/boxes.md, docs/PROFILE/lines.md). Plain data with public fields.
#![tactic(auto)]

mod breaking;
mod constraint;
mod fragment;
mod glyphs;
mod item;
mod lists;
mod run_unit;
mod unit_kind;

pub use breaking::Breaking;
pub use constraint::Constraint;
pub use fragment::{BoxPart, Fragment, FragmentKind, LineFragment};
pub use glyphs::{Characters, Glyphs};
pub use item::{BoxName, Item};
pub use lists::{Fragments, Items, RunUnits};
pub use run_unit::RunUnit;
pub use unit_kind::UnitKind;
