// Why a run ends before the end of its script.
use beas_core::NoMemory;
use outside::SinkError;

/// Why a run ended before the end of its script.
#[derive(Clone, Copy, Debug, PartialEq, Eq)]
pub enum Ending {
    /// The output failed.
    Fault,
    /// Out of memory.
    NoMemory,
}

impl From<NoMemory> for Ending {
    ghost use Rattle.std.specs.Prelude.{◌≡◌};
    ghost use Rattle.beas_run.specs.declared.ending.Ending.TheVariants.{NoMemory};

    ghost from_gives = { λ _ e. e ≡ NoMemory };

    fn from(_: NoMemory) -> Ending {
        Ending::NoMemory
    }
}

impl From<SinkError> for Ending {
    ghost use Rattle.beas_run.specs.Endings.{ending_of};
    ghost use Rattle.std.specs.Prelude.{◌≡◌};

    ghost from_gives = { λ why e. e ≡ ending_of why };

    fn from(why: SinkError) -> Ending {
        match why {
            SinkError::Failed => Ending::Fault,
            SinkError::NoMemory => Ending::NoMemory,
        }
    }
}
