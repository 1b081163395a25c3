//! The files and streams of the system as the engine sees them (`outside::Files` and `Sink`). Of what they hold nothing
//! is told to the engine, only counts of faults and of bytes that were taken. What was read of a reader whose own type
//! tells its bytes, and what such a writer took, the contracts say.
#![tactic(auto)]

mod real_files;
mod real_sink;

pub use real_files::{ReadCounts, RealFiles};
pub use real_sink::RealSink;
