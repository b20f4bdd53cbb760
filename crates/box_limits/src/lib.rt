//! The limit of boxes, judged where an edit touches a document: how many may turn inside one another (docs/PROFILE/boxes.md).
#![tactic(auto)]

mod above;
mod edited;
mod error;
mod judging;
pub mod laws;
mod place;
mod role;
mod rules;

pub use edited::check_edited;
pub use error::LimitError;
pub use rules::turn_none;
