// What is written, and why the writing stops.
use beas_core::{Name, NoMemory};
use report::{Report, text};
use std::alloc::Global;
use std::io;

/// Why what is to be written can't be made.
#[derive(Clone, Copy)]
pub enum Unmade {
    NoMemory,
    /// A name of a case is no identifier.
    NoName,
}

impl From<NoMemory> for Unmade {
    fn from(_: NoMemory) -> Unmade {
        Unmade::NoMemory
    }
}

/// Why the writing stopped.
#[derive(Drop)]
pub enum Stop {
    Unmade(Unmade),
    Output(io::Error),
}

impl From<Unmade> for Stop {
    fn from(why: Unmade) -> Stop {
        Stop::Unmade(why)
    }
}

impl From<NoMemory> for Stop {
    fn from(_: NoMemory) -> Stop {
        Stop::Unmade(Unmade::NoMemory)
    }
}

impl From<io::Error> for Stop {
    fn from(why: io::Error) -> Stop {
        Stop::Output(why)
    }
}

/// The error of a program whose writing stopped.
pub fn error_of(why: Stop) -> io::Error {
    match why {
        Stop::Unmade(Unmade::NoMemory) => io::Error::from(io::ErrorKind::OutOfMemory),
        Stop::Unmade(Unmade::NoName) => io::Error::from(io::ErrorKind::InvalidData),
        Stop::Output(why) => why,
    }
}

/// The name that a text spells.
pub fn name(alloc: Global, text: &str) -> Result<Name, Unmade> {
    Name::of(alloc, text)?.ok_or(Unmade::NoName)
}

/// Writes a report as it stands for statement 7. It takes the report, so that one call lets it go.
pub fn write(rt: &HostRuntime, report: Report) -> Result<(), Stop> {
    let written = write_lent(rt, &report);
    drop(report);
    written
}

fn write_lent(rt: &HostRuntime, report: &Report) -> Result<(), Stop> {
    let lines = text(rt.alloc(), 7, report)?;
    rt.print(lines.as_str())?;
    Ok(())
}
