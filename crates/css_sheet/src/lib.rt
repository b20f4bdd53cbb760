//! Style sheets, and all the styles of a document.
#![tactic(auto)]

mod compound;
mod counts;
mod default;
mod halt;
mod heads;
pub mod laws;
mod names;
mod selector;
mod sheet;
mod styled;
mod weighing;

pub use counts::Specificity;
pub use default::{DEFAULT_SHEET, default_is_read, default_sheet};
pub use heads::rule_heads;
pub use sheet::read_sheet;
pub use styled::read_styled;
pub use weighing::specificity;
