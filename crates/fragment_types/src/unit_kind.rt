//! How units of text stand on their line (CSS Writing Modes 4, 5.1 and 9.1).

/// How a unit stands on its line (CSS Writing Modes 4, 5.1 and 9.1).
#[derive(Clone, Copy, Debug, PartialEq, Eq)]
pub enum UnitKind {
    /// Along the line, in the modes that have no upright text.
    Along,
    /// Turned by a quarter, in a vertical line.
    Turned,
    /// Upright in a vertical line.
    Upright,
    /// A combined run: upright as a whole, its units side by side.
    Combined,
}
