//! Tests of a host with a face of its own: a module that tools/face-from-font made of a font, and a page that is laid out by it.
#![tactic(auto)]

#[cfg(test)]
mod font;
#[cfg(test)]
mod page;
