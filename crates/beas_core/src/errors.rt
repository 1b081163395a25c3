// Errors: a refused statement, and out of memory, which is merged with nothing.
ghost use Rattle.beas_core.specs.declared.errors.Fail.TheVariants.{NoMemory as OutOfMemory, Refused as Refusing};
ghost use Rattle.std.specs.Prelude.{◌≡◌};

use crate::refusal::Refusal;
use std::alloc::{AllocError, AllocFailed};

/// Out of memory.
#[derive(Clone, Copy, Debug, PartialEq, Eq)]
pub struct NoMemory;

impl From<AllocError> for NoMemory {
    fn from(_: AllocError) -> NoMemory {
        NoMemory
    }
}

impl<T: Drop> From<AllocFailed<T>> for NoMemory {
    fn from(_: AllocFailed<T>) -> NoMemory {
        NoMemory
    }
}

/// Why a call failed: the statement is refused, or the call ran out of memory.
#[derive(Debug, Drop)]
pub enum Fail {
    Refused(Refusal),
    NoMemory,
}

impl From<NoMemory> for Fail {
    ghost from_gives = { λ _ e. e ≡ OutOfMemory };

    fn from(_: NoMemory) -> Fail {
        Fail::NoMemory
    }
}

impl From<AllocError> for Fail {
    ghost from_gives = { λ _ e. e ≡ OutOfMemory };

    fn from(_: AllocError) -> Fail {
        Fail::NoMemory
    }
}

impl<T: Drop> From<AllocFailed<T>> for Fail {
    ghost from_gives = { λ _ e. e ≡ OutOfMemory };

    fn from(_: AllocFailed<T>) -> Fail {
        Fail::NoMemory
    }
}

impl From<Refusal> for Fail {
    ghost from_gives = { λ why e. e ≡ Refusing why };

    fn from(why: Refusal) -> Fail {
        Fail::Refused(why)
    }
}
