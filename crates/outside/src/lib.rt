//! What lies outside the engine: files that are loaded whole, sinks that take bytes, and kinds of both in memory.
#![tactic(auto)]

mod files;
mod memory_files;
mod memory_sink;
mod shelf;
mod sink;

pub use files::{Files, FilesError};
pub use memory_files::{MemoryFiles, SteadyFiles};
pub use memory_sink::{MemorySink, SteadySink};
pub use shelf::{Shelf, copy_within};
pub use sink::{Sink, SinkError};
