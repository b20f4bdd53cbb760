//! The generated input of the command `gen`: a document and a script of edits (docs/PROFILE/commands.md).
#![tactic(auto)]

mod generator;

pub use generator::gen_input;
