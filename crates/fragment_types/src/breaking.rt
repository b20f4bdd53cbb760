//! Where lines may end (CSS Text 3, 5.1).

/// Whether a line may end behind an item.
#[derive(Clone, Copy, Debug, PartialEq, Eq)]
pub enum Breaking {
    /// No line ends here.
    No,
    /// A line may end here.
    May,
    /// A line ends here: a forced break.
    Must,
}
