//! The edge to the outside: where the engine's bytes come from and where they go to.
#![tactic(auto)]

mod bytes;
mod calls;
mod copies;
mod edge;
mod error;
mod memory;
mod read;
mod std_edge;
mod steady;
mod waiting;
mod write;

pub use bytes::Bytes;
pub use edge::{IoFail, Sink, Source};
pub use error::{Memory, ReadError, WriteError};
pub use memory::{MemorySink, MemorySource};
pub use read::read_all;
pub use std_edge::{StdSink, StdSource};
pub use steady::{SteadySink, SteadySource};
pub use waiting::Waiting;
pub use write::write_all_of;
