// What a program of cases writes, section by section.
use crate::writing::error_of;
use crate::{groups, refusals, reports};
use std::{fs, io};

/// Writes a refusal of each text.
pub fn write_refusals(rt: &HostRuntime) -> io::Result<()> {
    refusals::write_all(rt).map_err(error_of)
}

/// Writes a report of each kind, and the records of answers.
pub fn write_reports(rt: &HostRuntime) -> io::Result<()> {
    reports::write_all(rt).map_err(error_of)
}

/// Writes what comes of the cases of a file, and of so many rows.
pub fn try_groups(rt: &HostRuntime, path: &str, rows: u32) -> io::Result<()> {
    let text = fs::read_to_string(rt, path)?;
    groups::write_all(rt, text.as_str(), rows).map_err(error_of)
}
