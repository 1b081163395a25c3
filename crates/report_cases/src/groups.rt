// Answers in groups.
use crate::cases::{Case, Wrong, cases_of};
use crate::many::try_many;
use crate::shown::show_case;
use crate::writing::Stop;
use beas_core::NoMemory;
use std::io;

fn write_case(rt: &HostRuntime, case: &mut Case) -> Result<(), Stop> {
    let shown = show_case(rt.alloc(), case)?;
    print!(rt; "{shown}")?;
    Ok(())
}

fn write_each(rt: &HostRuntime, cases: &mut [Case]) -> Result<(), Stop> {
    for case in cases.iter_mut() {
        write_case(rt, case)?;
    }
    Ok(())
}

fn say_unread(rt: &HostRuntime, number: usize) -> io::Result<()> {
    println!(rt; "line {number} can't be read")
}

fn write_cases(rt: &HostRuntime, text: &str) -> Result<(), Stop> {
    match cases_of(rt.alloc(), text) {
        Ok(mut cases) => write_each(rt, &mut cases),
        Err(Wrong::Line(number)) => Ok(say_unread(rt, number)?),
        Err(Wrong::NoMemory) => Err(Stop::from(NoMemory)),
    }
}

/// Writes what comes of the cases of a text, and of so many rows.
pub fn write_all(rt: &HostRuntime, text: &str, rows: u32) -> Result<(), Stop> {
    write_cases(rt, text)?;
    let said = try_many(rt.alloc(), rows)?;
    println!(rt; "{said}")?;
    Ok(())
}
