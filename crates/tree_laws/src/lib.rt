//! Laws of documents as they are edited (DOM, 4.2): what holds of every document stays so, and how many nodes and how much
//! text its tree has is known from the edits. These functions do nothing: their contracts are the laws.
#![tactic(auto)]

pub mod laws;
