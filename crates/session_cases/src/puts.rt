// An output that keeps each put by itself.
ghost use Rattle.std.specs.Prelude.{[], false};

use outside::{Sink, SinkError};
use std::alloc::Global;
use std::io;

/// All puts, in order. It tells nothing.
#[derive(Drop)]
pub struct Puts {
    alloc: Global,
    all: Vec<Vec<u8>>,
    puts: u64,
}

impl Puts {
    /// No puts.
    pub fn new(alloc: Global) -> Puts {
        Puts {
            alloc,
            all: Vec::new(alloc),
            puts: 0,
        }
    }

    /// The second put, counted from 1, where there is one.
    pub fn second_put(&self) -> Option<usize> {
        if self.all.len() < 2 {
            return None;
        }
        Some(2)
    }

    /// The first put, counted from 1, that isn't one report: it doesn't begin with its number, or the next report
    /// begins in it.
    pub fn wrong_put(&self, alloc: Global) -> io::Result<Option<usize>> {
        for (place, put) in self.all.iter().enumerate() {
            let number = place.saturating_add(1);
            let begin = format!(in alloc; "{number} ")?;
            let next = format!(in alloc; "\n{} ", number.saturating_add(1))?;
            let part = next.as_str().as_bytes();
            if !put.starts_with(begin.as_str().as_bytes())
                || put.windows(part.len()).any(|bytes| bytes == part)
            {
                return Ok(Some(number));
            }
        }
        Ok(None)
    }
}

impl Sink for Puts {
    ghost seen = { λ output. record { told = false; bytes = []; faults = 0; puts = output.puts } };

    fn put(&mut self, bytes: &[u8]) -> Result<(), SinkError> {
        self.puts = self.puts.saturating_add(1);
        let Ok(copy) = bytes.to_vec(self.alloc) else {
            return Err(SinkError::NoMemory);
        };
        match self.all.push(copy) {
            Ok(()) => Ok(()),
            Err(_) => Err(SinkError::NoMemory),
        }
    }
}
