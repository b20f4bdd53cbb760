//! Box generation: from a tree of styled nodes to the boxes that it makes (CSS 2, 9.2).
#![tactic(auto)]

mod checked;
mod filling;
mod found;
mod generate;
pub mod laws;
mod limit;
mod opened;
mod orthogonal;
mod paragraph;
mod role;
mod run;
mod site;
mod tree;

pub use checked::check_boxes;
pub use found::Found;
pub use generate::boxes;
pub use limit::BoxLimit;
pub use role::{Role, role_of, role_of_break, role_of_element};
pub use run::is_blank;
pub use site::Site;
pub use tree::{BoxNode, BoxTree, BoxTrees, Content};
