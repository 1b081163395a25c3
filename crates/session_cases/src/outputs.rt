// Calls of the outputs in memory.
use beas_core::NoMemory;
use outside::{MemorySink, Sink, SinkError, SteadySink};
use std::alloc::Global;

/// An output that fails where it is told to, and one that never fails.
#[derive(Drop)]
pub struct Outputs {
    memory: MemorySink,
    steady: SteadySink,
}

fn ending(outcome: Result<(), SinkError>) -> Result<&'static str, NoMemory> {
    match outcome {
        Ok(()) => Ok("ok"),
        Err(SinkError::Failed) => Ok("failed"),
        Err(SinkError::NoMemory) => Err(NoMemory),
    }
}

impl Outputs {
    /// Outputs that were sent nothing.
    pub fn new(alloc: Global) -> Outputs {
        Outputs {
            memory: MemorySink::new(alloc),
            steady: SteadySink::new(alloc),
        }
    }

    /// What a put gives.
    pub fn put(&mut self, alloc: Global, piece: &str) -> Result<String, NoMemory> {
        let one = ending(self.memory.put(piece.as_bytes()))?;
        let other = ending(self.steady.put(piece.as_bytes()))?;
        Ok(format!(in alloc; "{one}, steadily {other}")?)
    }

    /// Lets the first output fail after so many bytes.
    pub fn fail_after(&mut self, alloc: Global, total: u64) -> Result<String, NoMemory> {
        self.memory.fail_after(total);
        Ok(format!(in alloc; "it fails after {total} bytes")?)
    }

    /// What both took, and how many puts failed.
    pub fn line(&self, alloc: Global) -> Result<String, NoMemory> {
        let one = str::from_utf8(self.memory.bytes());
        let other = str::from_utf8(self.steady.bytes());
        let faults = self.memory.faults();
        Ok(format!(in alloc; "{one:?} with {faults} faults, steadily {other:?}")?)
    }
}
