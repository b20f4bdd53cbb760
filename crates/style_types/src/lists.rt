//! The lists of this crate. A contract sees the items of a list.

use crate::tree::StyledNode;

/// The nodes below one, in document order.
pub type StyledNodes = Vec<StyledNode>;
