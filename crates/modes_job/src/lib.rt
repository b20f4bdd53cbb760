//! What the command `modes` writes: the flow of a document and its page in each of four modes, of one layout (CSS Writing Modes 4, 6.2 and 6.4).
#![tactic(auto)]

pub mod laws;
mod telling;

pub use telling::tell_modes;
