//! The view (CSS 2, 10.1; CSS Writing Modes 4, 8.1).

/// The view, which is the initial containing block (CSS 2, 10.1; CSS Writing Modes 4, 8.1): its sizes on
/// the root's inline and block axes, in units of 1/64 px.
#[derive(Clone, Copy, Debug, PartialEq, Eq)]
pub struct View {
    pub inline: i64,
    pub block: i64,
}
