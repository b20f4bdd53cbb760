//! The tokens of documents: names, white space and comments, character data and references, tags and their attributes
//! as they stand (docs/PROFILE/html.md).
#![tactic(auto)]

mod attribute;
mod characters;
mod entity;
mod error;
pub mod laws;
mod lexing;
mod plain;
mod raw_text;
mod references;
mod tag;
mod text;
mod written;

pub use attribute::{ATTRIBUTES, Role, role_of};
pub use entity::ENTITIES;
pub use error::Refusal;
pub use lexing::{comment, doctype, end_name, end_of, misc, name, tag_end};
pub use raw_text::{RawEnd, raw};
pub use references::reference;
pub use tag::{TAGS, Tag, is_void, tag_named};
pub use text::gap;
pub use written::{WrittenAttribute, attributes};
