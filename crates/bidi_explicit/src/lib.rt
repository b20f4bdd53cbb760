//! The explicit levels of the Unicode Bidirectional Algorithm (UAX 9): the base level of a paragraph (P2, P3),
//! the levels by embeddings, overrides and isolates (X1 to X9), and the isolating run sequences (X10).
#![tactic(auto)]

mod ahead;
mod base;
mod explicit;
mod isolates;
pub mod laws;
mod links;
mod lists;
mod machine;
mod paragraph;
mod sequences;
mod stack;

pub use base::{base_level, base_of};
pub use explicit::levels;
pub use lists::runs;
pub use paragraph::{
    ClassList, FlatRuns, LevelList, Levels, MarkList, PlaceList, Run, RunSpan, Runs, SpanList,
};
pub use sequences::flat_runs;
