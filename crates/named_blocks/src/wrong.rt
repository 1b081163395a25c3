// What is wrong with a text of cases.
use beas_core::NoMemory;
use std::alloc::{AllocError, AllocFailed};

/// Why a text has no cases.
#[derive(Debug, Drop)]
pub enum Wrong {
    /// This line, from 1 on, can't be read.
    Line(usize),
    NoMemory,
}

impl From<NoMemory> for Wrong {
    fn from(_: NoMemory) -> Wrong {
        Wrong::NoMemory
    }
}

impl From<AllocError> for Wrong {
    fn from(_: AllocError) -> Wrong {
        Wrong::NoMemory
    }
}

impl<T: Drop> From<AllocFailed<T>> for Wrong {
    fn from(_: AllocFailed<T>) -> Wrong {
        Wrong::NoMemory
    }
}
