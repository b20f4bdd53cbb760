//! What stands behind a run of characters, which several rules look for.

use wm_chars::BidiClass;

/// What stands behind a run, as it was seen from a place in it: up to the place `until`, where the run ends, the
/// same is to be seen.
#[derive(Clone, Copy)]
pub(crate) struct Ahead {
    pub(crate) until: usize,
    pub(crate) side: BidiClass,
}
