//! What a line of a probe asks.

/// What a line asks.
#[derive(Clone, Copy, Debug, Drop, PartialEq, Eq)]
pub enum Probe {
    /// What stands at this point, in units of 1/64 px.
    At { x: i64, y: i64 },
    /// Where the caret stands at this place of a text node.
    Caret { node: u32, place: u32 },
}

/// What the lines of a probe ask, in order. Lines that ask nothing are left out.
pub type Probes = Vec<Probe>;
