//! Laws of one flow in four modes (CSS Writing Modes 4, 6.2 and 6.4), over the definitions of layout: what a document comes to in
//! vertical-rl, sideways-rl and sideways-lr is what it comes to in horizontal-tb. These functions do nothing: their contracts are the laws.
#![tactic(auto)]

pub mod laws;
