// Calls of the files in memory.
use beas_core::{Bytes, NoMemory, Text};
use outside::{Files, FilesError, MemoryFiles, SteadyFiles};
use std::alloc::Global;

/// Files that fail where they are told to, and files that never fail.
#[derive(Drop)]
pub struct Shelves {
    pub memory: MemoryFiles,
    pub steady: SteadyFiles,
}

/// What a load gives.
fn read_in<F: Files>(
    alloc: Global,
    files: &mut F,
    name: &str,
    limit: u32,
) -> Result<String, NoMemory> {
    match files.read(alloc, name, u64::from(limit)) {
        Ok(bytes) => Ok(format!(in alloc; "{:?}", str::from_utf8(bytes.as_slice()))?),
        Err(FilesError::Failed) => Ok(format!(in alloc; "failed")?),
        Err(FilesError::TooLong { limit }) => Ok(format!(in alloc; "above {limit} bytes")?),
        Err(FilesError::NoMemory) => Err(NoMemory),
    }
}

fn file(alloc: Global, name: &str, content: &str) -> Result<(Text, Bytes), NoMemory> {
    let name = Text::from_str(alloc, name)?;
    let bytes = Bytes::from_vec(content.as_bytes().to_vec(alloc)?);
    Ok((name, bytes))
}

impl Shelves {
    /// No files.
    pub fn new(alloc: Global) -> Shelves {
        Shelves {
            memory: MemoryFiles::new(alloc),
            steady: SteadyFiles::new(alloc),
        }
    }

    /// Gives both kinds a file.
    pub fn add(&mut self, alloc: Global, name: &str, content: &str) -> Result<String, NoMemory> {
        let (named, bytes) = file(alloc, name, content)?;
        self.memory.add(named, bytes)?;
        let (named, bytes) = file(alloc, name, content)?;
        self.steady.add(named, bytes)?;
        Ok(format!(in alloc; "{name} has {} bytes", content.len())?)
    }

    /// Lets the load with a number fail, from 0 on.
    pub fn fail(&mut self, alloc: Global, call: u32) -> Result<String, NoMemory> {
        self.memory.fail_at(call)?;
        Ok(format!(in alloc; "read {call} is to fail")?)
    }

    /// What a load of both kinds gives.
    pub fn load(&mut self, alloc: Global, name: &str, limit: u32) -> Result<String, NoMemory> {
        let one = read_in(alloc, &mut self.memory, name, limit)?;
        let other = read_in(alloc, &mut self.steady, name, limit)?;
        Ok(format!(in alloc; "{one}, steadily {other}")?)
    }

    /// How many loads of a file failed.
    pub fn faults(&self, alloc: Global, name: &str) -> Result<String, NoMemory> {
        Ok(format!(in alloc; "{} faults", self.memory.faults(name))?)
    }
}
