// What C holds between calls.
ghost use Rattle.std.specs.Prelude.{◌≡◌, ◌==◌, Option, None, Some, IsSome, is_some, option_map};

use crate::held::Held;
use crate::seat::Seat;
use std::alloc::Global;

/// The mark of an open database. C's memory is not likely to have it elsewhere.
const OPEN: u64 = 0x6265_6173_6f70_656e;

/// A database as C keeps it, open or closed. One whose bytes are all 0 is closed.
#[repr(C)]
pub struct Database {
    mark: u64,
    pub seat: Seat,
    ghost marked: { is_some seat.value ≡ (mark == 0x6265_6173_6f70_656e) },
}

impl Database {
    /// Takes out what an open database holds, and closes it.
    pub(crate) fn take(&mut self, alloc: Global) -> Option<Box<Held>>
        ensures held { option_map (λ b. b.value) result ≡ self.old.seat.value }
        ensures left { self.new.seat.value ≡ None }
    {
        if self.mark != OPEN {
            return None;
        }
        self.mark = 0;
        Some(self.seat.take(alloc))
    }

    /// Opens a closed database.
    pub(crate) fn put(&mut self, held: Box<Held>)
        requires { self.old.seat.value ≡ None }
        ensures { self.new.seat.value ≡ Some held.value }
    {
        self.seat.put(held);
        self.mark = OPEN;
    }
}
