// What the arguments may ask for, and why they may fail to.
ghost use Rattle.command_line.specs.declared.arguments.Usage.TheVariants.{NoMemory};
ghost use Rattle.clap.specs.Values.{kind_of};
ghost use Rattle.clap.specs.declared.error.kind.ErrorKind.TheVariants.{OutOfMemory};
ghost use Rattle.std.specs.Prelude.{◌≡◌, ◌↔◌};
ghost use Rattle.command_line.specs.Arguments.{usage_line};

use beas_core::{NoMemory, Text};
use clap::error::{Error, ErrorKind};
use std::alloc::AllocError;

/// A run of the program.
#[derive(Debug, Drop)]
pub enum Args {
    /// Carry out the script in this file.
    Script {
        path: Text,
        budget: Option<u64>,
        explain: bool,
    },
    /// Carry out the demonstration that this seed makes.
    Demo {
        seed: u32,
        budget: Option<u64>,
        explain: bool,
    },
}

/// The line that says how the arguments are to be written.
pub fn usage_line() -> &'static str
    ensures { result.now ≡ usage_line }
{
    "usage: beas SCRIPT [--budget N] [--explain] or beas --demo SEED [--budget N] [--explain]\n"
}

/// Why no run is known: the arguments ask for none, or the call ran out of memory.
#[derive(Clone, Copy, Debug, PartialEq, Eq)]
pub enum Usage {
    Refused,
    NoMemory,
}

impl From<NoMemory> for Usage {
    ghost from_gives = { λ _ e. e ≡ NoMemory };

    fn from(_: NoMemory) -> Usage {
        Usage::NoMemory
    }
}

impl From<AllocError> for Usage {
    ghost from_gives = { λ _ e. e ≡ NoMemory };

    fn from(_: AllocError) -> Usage {
        Usage::NoMemory
    }
}

// A request for help is refused like an argument that is unknown.
impl From<Error> for Usage {
    ghost from_gives = { λ why e. e ≡ NoMemory ↔ kind_of why ≡ OutOfMemory };

    fn from(why: Error) -> Usage {
        match why.kind() {
            ErrorKind::OutOfMemory => Usage::NoMemory,
            _ => Usage::Refused,
        }
    }
}
