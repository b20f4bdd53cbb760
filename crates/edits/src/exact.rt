//! Exact edits: steps of a history down and up again, in which each node has the number and each rule the place that it had
//! (DOM, 4.2.3, and CSSOM, 6.4, narrowed).

use css_types::Rules;
use dom_store::ExactEdit as ExactTreeEdit;

/// An edit of a document that is open, which draws no number.
#[derive(Debug, Drop)]
pub enum ExactEdit {
    /// Its tree is edited.
    Tree(ExactTreeEdit),
    /// These rules stand among the author's, the first of them at this index, counted as in `Edit`.
    PutRules { index: u32, rules: Rules },
    /// So many rules of the author go, the first of them at this index.
    TakeRules { index: u32, count: u32 },
}

/// What leads back from a document after an edit to the one before it, and what leads there again.
#[derive(Debug, Drop)]
pub struct Step {
    pub back: ExactEdit,
    pub again: ExactEdit,
}
