// A tuple of codes and how many rows have it.
ghost use Rattle.std.specs.Prelude.{◌≡◌, IfOk};

use crate::codes::TupleCodes;
use beas_core::{Duplicate, NoMemory};
use blocked_list::Counted;
use std::alloc::Global;

/// The codes of a tuple over a constraint's columns, and how many rows have it.
#[derive(Drop)]
pub struct Coded {
    pub codes: TupleCodes,
    pub count: u32,
}

impl Coded {
    /// A tuple of these codes that so many rows have.
    pub fn of(alloc: Global, codes: &[u64], count: u32) -> Result<Coded, NoMemory>
        ensures { IfOk result (λ coded. coded ≡ record { codes = codes.now; count = count }) }
    {
        Ok(Coded {
            codes: TupleCodes::of(alloc, codes)?,
            count,
        })
    }
}

impl Counted for Coded {
    ghost recounted = { λ coded count. record coded { count = count } };

    fn set_count(&mut self, count: u32) {
        self.count = count;
    }
}

impl Duplicate for Coded {
    fn copy(&self, alloc: Global) -> Result<Coded, NoMemory> {
        Coded::of(alloc, self.codes.as_slice(), self.count)
    }
}
