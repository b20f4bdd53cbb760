//! The cascade: which elements a selector matches, and which declaration wins (Selectors 3; CSS Cascading 4, 6).
#![tactic(auto)]

mod claim;
mod claims;
mod class_sets;
mod defaults;
mod filed;
mod index;
mod kept;
pub mod laws;
mod line;
mod matching;
mod places;
mod seen;
mod shelves;
mod winning;

pub use claim::{Claim, Key, Origin};
pub use index::{RuleIndex, winners};
pub use kept::KeptLine;
pub use matching::matches;
