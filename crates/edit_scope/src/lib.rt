//! Laws of the elements that an edit of an open document touches (DOM, 4.2; CSS 2, 9.2): all others keep their lines, what is below them and
//! their boxes. These functions do nothing: their contracts are the laws.
#![tactic(auto)]

pub mod laws;
