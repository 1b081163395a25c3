// Texts with what they are to be read as.
use crate::cases::{Case, cases_of, reserved_cases};
use crate::readings::{name_in, pieces_in, statement_in};
use crate::tokens::{cuts_in, tokens_in};
use beas_core::NoMemory;
use std::alloc::Global;
use std::{fs, io};

/// The files of cases.
const FILES: [&str; 8] = [
    "spellings",
    "refusals",
    "depths",
    "reserved",
    "pieces",
    "names",
    "tokens",
    "cuts",
];

/// The error of cases that run out of memory.
fn out_of_memory(_: NoMemory) -> io::Error {
    io::Error::from(io::ErrorKind::OutOfMemory)
}

/// The cases of a file with this name.
fn cases_in(alloc: Global, file: &str, text: &str) -> Result<Vec<Case>, NoMemory> {
    match file {
        "reserved" => reserved_cases(alloc, text),
        _ => cases_of(alloc, text),
    }
}

/// What a text in a file with this name is read as.
fn reading(alloc: Global, file: &str, text: &str) -> Result<String, NoMemory> {
    match file {
        "pieces" => pieces_in(alloc, text),
        "names" => name_in(alloc, text),
        "tokens" => tokens_in(alloc, text),
        "cuts" => cuts_in(alloc, text),
        _ => statement_in(alloc, text),
    }
}

/// Tries a case, and says where it goes wrong. Whether it went well.
fn try_case(rt: &HostRuntime, file: &str, case: &Case) -> io::Result<bool> {
    let found = reading(rt.alloc(), file, case.text.as_str()).map_err(out_of_memory)?;
    let is_as_wanted = found.as_str() == case.wanted.as_str();
    if !is_as_wanted {
        println!(rt; "{file}: {}\nis read as\n{found}", case.text)?;
    }
    Ok(is_as_wanted)
}

/// Tries these cases of a file, and says how many went well.
fn try_cases(rt: &HostRuntime, file: &str, cases: &[Case]) -> io::Result<()> {
    let mut well = 0_usize;
    for case in cases {
        if try_case(rt, file, case)? {
            well = well.saturating_add(1);
        }
    }
    println!(rt; "{file}: {well} of {} as wanted", cases.len())
}

/// Tries all cases of a file.
fn try_file(rt: &HostRuntime, folder: &str, file: &str) -> io::Result<()> {
    let path = format!(in rt.alloc(); "{folder}/{file}")?;
    let text = fs::read_to_string(rt, path.as_str())?;
    let cases = cases_in(rt.alloc(), file, text.as_str()).map_err(out_of_memory)?;
    try_cases(rt, file, &cases)
}

/// Tries the cases of all files of a folder.
pub fn try_spellings(rt: &HostRuntime, folder: &str) -> io::Result<()> {
    for file in FILES {
        try_file(rt, folder, file)?;
    }
    Ok(())
}
