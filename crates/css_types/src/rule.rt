//! Selectors and rules, and all that a document says of styles (Selectors 3; CSS 2, 4.1.7).

use crate::lists::{Declarations, Parts, Rules, Styles};
use letters::{LetterList, Letters};
use std::rc::Rc;

/// How a compound selector is joined to the one on its left (Selectors 3, 8).
#[derive(Clone, Copy, Debug, PartialEq, Eq)]
pub enum Joint {
    Descendant,
    Child,
}

/// A compound selector. The joint of the first one is `Descendant`.
#[derive(Debug, Drop)]
pub struct Part {
    pub joint: Joint,
    /// The type, or none for `*` and where there is none.
    pub tag: Option<Letters>,
    pub classes: LetterList,
    pub ids: LetterList,
}

/// A complex selector: compounds from left to right.
#[derive(Debug, Drop)]
pub struct Selector {
    pub parts: Parts,
}

/// A rule: one selector and its declarations in order, shorthands expanded. The rules of a list of selectors, and copies
/// of a rule, share their declarations.
#[derive(Debug, Drop)]
pub struct Rule {
    pub selector: Selector,
    pub declarations: Rc<Declarations>,
}

/// The author's rules of a document, and each node's own declarations.
#[derive(Debug, Drop)]
pub struct Styled {
    pub rules: Rules,
    pub styles: Styles,
}
