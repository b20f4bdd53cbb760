//! Which character of a page stands at a point, and where the caret stands at a place of a text (CSS Writing Modes 4, 6.2).
#![tactic(auto)]

mod carets;
mod cells;
mod error;
mod finding;
mod hits;
pub mod laws;
mod probe_line;
mod probes;
mod probing;
mod rects;
mod visiting;

pub use carets::{caret, caret_point};
pub use cells::Cell;
pub use error::{ProbeError, Refusal};
pub use finding::hit;
pub use hits::Hit;
pub use probes::{Probe, Probes};
pub use probing::read_probe;
pub use rects::Point;
pub use visiting::{CellVisitor, visit_cells};
