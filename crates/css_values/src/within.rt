//! Where declarations stand: in a style attribute, or in a rule of a sheet.

/// Where declarations stand.
#[derive(Clone, Copy, Debug, PartialEq, Eq)]
pub enum Within {
    /// In a style attribute: they go to the end of its text.
    Attribute,
    /// In a rule of a sheet: they go to its `}`. Each counts once for each of the rule's `selectors`; `before` says
    /// how many were counted before them.
    Rule { selectors: usize, before: usize },
}
