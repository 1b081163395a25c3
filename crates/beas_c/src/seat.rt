// A box behind a pointer that C may hold.
ghost use Rattle.std.specs.Prelude.{◌≡◌, Option, None, Some, IsSome};
ghost use Rattle.std.specs.Coded.{coded_option};
ghost use Rattle.beas_c.specs.contracts.held.Held.{the_row};
ghost use Rattle.beas_c.specs.declared.held.Held.{Held};

use crate::held::Held;
use std::alloc::Global;
use std::marker::Model;

/// It owns the box at its pointer, if its ghost value is there. Its pointer has no type, since C may not name one that is lent by `Box`.
#[repr(C)]
pub struct Seat {
    at: *mut u8,
    pub ghost value: { Option Held } by { coded_option the_row.coded },
}

impl Model for Seat {
    ghost use Rattle.beas_c.specs.Seats.{seat_owns};

    ghost also_owns = { λ s. seat_owns s.at s.value };
}

impl Seat {
    /// Puts a box into a seat that has none.
    pub(crate) fn put(&mut self, held: Box<Held>)
        requires { self.old.value ≡ None }
        ensures { self.new.value ≡ Some held.value }
    {
        self.at = Box::into_raw(held) as *mut u8;
    }

    /// Takes the box out.
    pub(crate) fn take(&mut self, alloc: Global) -> Box<Held>
        requires { IsSome self.old.value }
        ensures held { Some result.value ≡ self.old.value }
        ensures left { self.new.value ≡ None }
    {
        unsafe { Box::from_raw(alloc, self.at as *mut Held) }
    }
}
