//! The lists of this crate. A contract sees the items of a list.

use crate::property::Property;
use crate::rule::{Part, Rule};
use crate::value::{Declaration, Value};

/// The compounds of a selector from left to right.
pub type Parts = Vec<Part>;

/// Declarations in order.
pub type Declarations = Vec<Declaration>;

/// Rules in order.
pub type Rules = Vec<Rule>;

/// The own declarations of each node, in document order.
pub type Styles = Vec<Declarations>;

/// The value that won for each property, with sides and axes of the page alone.
pub type Winners = Vec<(Property, Value)>;
