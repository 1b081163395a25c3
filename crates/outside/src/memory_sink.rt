// Sinks in memory, which tell their bytes.
ghost use Rattle.std.specs.Prelude.{◌≡◌, ◌⊎◌, ◌+◌, ◌-◌, ◌^◌, ◌≤◌, ◌++◌, [], true, None, Some, min, take, IsOk, IsErrOf};
ghost use Rattle.outside.specs.Counts.{raised};
ghost use Rattle.outside.specs.Parts.{SentPart};
ghost use Rattle.outside.specs.Room.{part_taken, put_answer};

use crate::sink::{Sink, SinkError};
use std::alloc::Global;

/// A sink in memory. It can be told to fail after some bytes.
#[derive(Debug, Drop)]
pub struct MemorySink {
    sent: Vec<u8>,
    total: Option<u64>,
    faults: u64,
    puts: u64,
}

impl MemorySink {
    /// An empty sink that takes all that memory has room for.
    pub fn new(alloc: Global) -> MemorySink
        ensures sent { result.sent.items ≡ [] }
        ensures total { result.total ≡ None }
        ensures faults { result.faults ≡ 0 }
        ensures puts { result.puts ≡ 0 }
    {
        MemorySink {
            sent: Vec::new(alloc),
            total: None,
            faults: 0,
            puts: 0,
        }
    }

    /// Lets each put fail that would bring the bytes sent past `total`, once it has sent those up to there.
    pub fn fail_after(&mut self, total: u64)
        ensures total { self.new.total ≡ Some total }
        ensures sent { self.new.sent.items ≡ self.old.sent.items }
        ensures faults { self.new.faults ≡ self.old.faults }
        ensures puts { self.new.puts ≡ self.old.puts }
    {
        self.total = Some(total);
    }

    /// The bytes sent.
    pub fn bytes(&self) -> &[u8]
        ensures { result.now ≡ self.now.sent.items }
    {
        &self.sent
    }

    /// How many puts failed.
    pub fn faults(&self) -> u64
        ensures { result ≡ self.now.faults }
    {
        self.faults
    }

    /// The part of a piece that there is room for.
    fn part<'a>(&self, bytes: &'a [u8]) -> &'a [u8]
        ensures { result.now ≡ part_taken self.now.total self.now.sent.items bytes.now }
    {
        match self.total {
            None => bytes,
            Some(total) => first(bytes, total.saturating_sub(self.sent.len() as u64)),
        }
    }
}

/// The first bytes of a piece, at most `count`.
fn first(bytes: &[u8], count: u64) -> &[u8]
    ensures { result.now ≡ take count bytes.now }
{
    if (bytes.len() as u64) <= count {
        bytes
    } else {
        &bytes[..count as usize]
    }
}

impl Sink for MemorySink {
    ghost seen = { λ sink. record { told = true; bytes = sink.sent.items; faults = sink.faults; puts = sink.puts } };

    #[tactic(auto, using(crate::proofs::Room::part_sent, crate::proofs::Room::none_sent))]
    fn put(&mut self, bytes: &[u8]) -> Result<(), SinkError>
        ensures answer { IsErrOf result SinkError.NoMemory ⊎ (result
            ≡ put_answer self.old.total self.old.sent.items bytes.now) }
        ensures sent { IsErrOf result SinkError.NoMemory ⊎ (self.new.sent.items
            ≡ self.old.sent.items ++ part_taken self.old.total self.old.sent.items bytes.now) }
        ensures kept { IsErrOf result SinkError.NoMemory → self.new.sent.items ≡ self.old.sent.items }
        ensures part { SentPart self.old.sent.items self.new.sent.items bytes.now }
        ensures rise { self.old.faults ≤ self.new.faults }
        ensures failed { IsErrOf result SinkError.Failed → self.new.faults ≡ min (self.old.faults + 1) (2 ^ 64 - 1) }
        ensures no_fault { (IsErrOf result SinkError.Failed → ⊥) → self.new.faults ≡ self.old.faults }
        ensures total { self.new.total ≡ self.old.total }
        ensures puts { self.new.puts ≡ raised 1 self.old.puts }
    {
        self.puts = self.puts.saturating_add(1);
        let part = self.part(bytes);
        if self.sent.extend_from_slice(part).is_err() {
            return Err(SinkError::NoMemory);
        }
        if part.len() < bytes.len() {
            self.faults = self.faults.saturating_add(1);
            return Err(SinkError::Failed);
        }
        Ok(())
    }
}

/// A sink in memory of which no put fails.
#[derive(Debug, Drop)]
pub struct SteadySink {
    sent: Vec<u8>,
    puts: u64,
}

impl SteadySink {
    /// An empty sink.
    pub fn new(alloc: Global) -> SteadySink
        ensures sent { result.sent.items ≡ [] }
        ensures puts { result.puts ≡ 0 }
    {
        SteadySink {
            sent: Vec::new(alloc),
            puts: 0,
        }
    }

    /// The bytes sent.
    pub fn bytes(&self) -> &[u8]
        ensures { result.now ≡ self.now.sent.items }
    {
        &self.sent
    }
}

impl Sink for SteadySink {
    ghost seen = { λ sink. record { told = true; bytes = sink.sent.items; faults = 0; puts = sink.puts } };

    fn put(&mut self, bytes: &[u8]) -> Result<(), SinkError>
        ensures answer { IsErrOf result SinkError.NoMemory ⊎ IsOk result }
        ensures sent { IsOk result → self.new.sent.items ≡ self.old.sent.items ++ bytes.now }
        ensures kept { IsErrOf result SinkError.NoMemory → self.new.sent.items ≡ self.old.sent.items }
        ensures puts { self.new.puts ≡ raised 1 self.old.puts }
    {
        self.puts = self.puts.saturating_add(1);
        match self.sent.extend_from_slice(bytes) {
            Ok(()) => Ok(()),
            Err(_) => Err(SinkError::NoMemory),
        }
    }
}
